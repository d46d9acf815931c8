//! Readers and writers of all fields of a record, from its layout.

/// Reads a record by its table of fields: `TABLE!(read_fields!(Record bytes))`, where `bytes` is a
/// reference to the bytes.
#[macro_export]
macro_rules! read_fields {
    ($record:ident $bytes:ident; $($field:ident: $kind:ident, $off:literal, $len:tt;)+) => {
        $record { $($field: $crate::read_field!($bytes $kind $off $len)),+ }
    };
}

/// Writes a record by its table of fields: `TABLE!(write_fields!(record bytes))`, where `bytes` is a
/// unique reference to the bytes.
#[macro_export]
macro_rules! write_fields {
    ($record:ident $bytes:ident; $($field:ident: $kind:ident, $off:literal, $len:tt;)+) => {
        {
            $($crate::write_field!($bytes $record $field $kind $off $len);)+
        }
    };
}

/// Reads one field, by the row of its table.
#[macro_export]
macro_rules! read_field {
    ($bytes:ident bool $off:literal 1) => { $crate::flag_at::<$off>($bytes) };
    ($bytes:ident u16 $off:literal 16) => { $crate::u16_at::<$off>($bytes) };
    ($bytes:ident u32 $off:literal 32) => { $crate::u32_at::<$off>($bytes) };
    ($bytes:ident u64 $off:literal 64) => { $crate::u64_at::<$off>($bytes) };
    ($bytes:ident u128 $off:literal 128) => { $crate::u128_at::<$off>($bytes) };
    ($bytes:ident bytes_64 $off:literal $len:tt) => { $crate::bytes_at::<$off, $len, 64>($bytes) };
    ($bytes:ident bytes_200 $off:literal $len:tt) => { $crate::bytes_at::<$off, $len, 200>($bytes) };
    ($bytes:ident $kind:ident $off:literal $len:tt) => { $crate::get_bits::<$off, $len>($bytes) as $kind };
}

/// Writes one field, by the row of its table.
#[macro_export]
macro_rules! write_field {
    ($bytes:ident $record:ident $field:ident bool $off:literal 1) => { $crate::put_flag_at::<$off>($bytes, $record.$field) };
    ($bytes:ident $record:ident $field:ident u16 $off:literal 16) => { $crate::put_u16_at::<$off>($bytes, $record.$field) };
    ($bytes:ident $record:ident $field:ident u32 $off:literal 32) => { $crate::put_u32_at::<$off>($bytes, $record.$field) };
    ($bytes:ident $record:ident $field:ident u64 $off:literal 64) => { $crate::put_u64_at::<$off>($bytes, $record.$field) };
    ($bytes:ident $record:ident $field:ident u128 $off:literal 128) => { $crate::put_u128_at::<$off>($bytes, $record.$field) };
    ($bytes:ident $record:ident $field:ident bytes_64 $off:literal $len:tt) => {
        $crate::put_bytes_at::<$off, $len, 64>($bytes, &$record.$field)
    };
    ($bytes:ident $record:ident $field:ident bytes_200 $off:literal $len:tt) => {
        $crate::put_bytes_at::<$off, $len, 200>($bytes, &$record.$field)
    };
    ($bytes:ident $record:ident $field:ident $kind:ident $off:literal $len:tt) => {
        $crate::put_bits::<$off, $len>($bytes, $record.$field as u64)
    };
}
