//! ServiceRecord.

ghost use Rattle.std.specs.Prelude.{◌≡◌, ◌≤◌, ◌+◌, filter, map, replicate};
ghost use Rattle.mad_layout.specs.Bits.{field};
ghost use Rattle.mad_layout.specs.Layout.{Holds, Fits, at, put_all, Encodes};
ghost use Rattle.std.specs.Option.{option_or};
ghost use Rattle.sa_records.specs.Asked.{asked_by, bits_of, with_number, with_value};
ghost use Rattle.sa_records.specs.ServiceRecord.{is_named, numbers_asked, with_number_named, service_in, service_record, service_fields, service_record_asked, service_data_asked, service_record_bytes, service_record_selected, names_selected, data8_front_selected, data8_back_selected, data16_selected, data32_selected, data64_selected};

use crate::asked::{component_agrees, is_word, selected, set_asked, set_field, set_number};
use crate::component::{agrees, same_base, same_part};
use crate::service_mask as mask;
use mad_layout::{SA_DATA_BYTES, get_bits, put_bits, read_fields, write_fields};

/// How many bytes a ServiceRecord fills in a table.
pub const SERVICE_RECORD_BYTES: usize = 176;

/// AttributeOffset of a table of ServiceRecords: the same in units of 8 bytes.
pub const SERVICE_RECORD_OFFSET: u16 = (SERVICE_RECORD_BYTES / 8) as u16;

/// A service that a port offers, each field as its raw bits.
///
/// Source: IBA volume 1, 15.2.5.14.
#[derive(Clone, Copy, Debug, PartialEq, Eq)]
pub struct ServiceRecord {
    /// The service.
    pub service_id: u64,
    /// The GID of the port that offers it.
    pub service_gid: u128,
    /// The key of the partition in which it is offered.
    pub service_p_key: u16,
    /// For how many seconds it is offered.
    pub service_lease: u32,
    /// The key by which its owner changes it.
    pub service_key: u128,
    /// Its name: text, and zero bytes after it.
    pub service_name: [u8; 64],
    /// What it says to those who ask: 16 numbers of 8 bits, 8 of 16, 4 of 32 and 2 of 64.
    pub service_data: [u8; 64],
}

/// ServiceRecord (IBA volume 1, 15.2.5): field, type, first bit, bits.
macro_rules! service_record_layout {
    ($then:ident!($($context:tt)*)) => {
        $then!($($context)*;
            service_id: u64, 0, 64;
            service_gid: u128, 64, 128;
            service_p_key: u16, 192, 16;
            service_lease: u32, 224, 32;
            service_key: u128, 256, 128;
            service_name: bytes_64, 384, 512;
            service_data: bytes_64, 896, 512;
        )
    };
}

/// What services are asked by with a number (IBA volume 1, 15.2.5.14): word in scripts, bits of the ComponentMask, field,
/// type, bits, and how it constrains.
macro_rules! service_record_components {
    ($then:ident!($($context:tt)*)) => {
        $then!($($context)*;
            b"sid", mask::SERVICE_ID, service_id: u64, 64, equal;
            b"gid", mask::SERVICE_GID, service_gid: u128, 128, equal;
            b"pkey", mask::SERVICE_P_KEY, service_p_key: u16, 16, base;
            b"lease", mask::SERVICE_LEASE, service_lease: u32, 32, equal;
            b"key", mask::SERVICE_KEY, service_key: u128, 128, equal;
        )
    };
}

/// The numbers in ServiceData: word in scripts, bits of the ComponentMask, first bit, bits.
macro_rules! service_data_components {
    ($then:ident!($($context:tt)*)) => {
        $then!($($context)*;
            b"data8_1", 1 << 7, 0, 8;
            b"data8_2", 1 << 8, 8, 8;
            b"data8_3", 1 << 9, 16, 8;
            b"data8_4", 1 << 10, 24, 8;
            b"data8_5", 1 << 11, 32, 8;
            b"data8_6", 1 << 12, 40, 8;
            b"data8_7", 1 << 13, 48, 8;
            b"data8_8", 1 << 14, 56, 8;
            b"data8_9", 1 << 15, 64, 8;
            b"data8_10", 1 << 16, 72, 8;
            b"data8_11", 1 << 17, 80, 8;
            b"data8_12", 1 << 18, 88, 8;
            b"data8_13", 1 << 19, 96, 8;
            b"data8_14", 1 << 20, 104, 8;
            b"data8_15", 1 << 21, 112, 8;
            b"data8_16", 1 << 22, 120, 8;
            b"data16_1", 1 << 23, 128, 16;
            b"data16_2", 1 << 24, 144, 16;
            b"data16_3", 1 << 25, 160, 16;
            b"data16_4", 1 << 26, 176, 16;
            b"data16_5", 1 << 27, 192, 16;
            b"data16_6", 1 << 28, 208, 16;
            b"data16_7", 1 << 29, 224, 16;
            b"data16_8", 1 << 30, 240, 16;
            b"data32_1", 1 << 31, 256, 32;
            b"data32_2", 1 << 32, 288, 32;
            b"data32_3", 1 << 33, 320, 32;
            b"data32_4", 1 << 34, 352, 32;
            b"data64_1", 1 << 35, 384, 64;
            b"data64_2", 1 << 36, 448, 64;
        )
    };
}

/// Copies each number that a mask names: `TABLE!(copy_named!(bytes mask numbers))`.
macro_rules! copy_named {
    ($bytes:ident $mask:ident $numbers:ident; $($word:literal, $bits:expr, $off:literal, $len:literal;)+) => {
        {
            $(copy_number::<$off, $len>($bytes, $mask, $bits, $numbers);)+
        }
    };
}

impl ServiceRecord {
    /// Reads the record that the data of a MAD of subnet administration begin with; bits outside its fields are not
    /// looked at.
    #[tactic(auto, unfolding(crate::specs::ServiceRecord::service_in))]
    pub fn read(bytes: &[u8; SA_DATA_BYTES]) -> ServiceRecord
        ensures fields { Holds bytes.now (service_record result) }
        ensures value { result ≡ service_in bytes.now }
    {
        service_record_layout!(read_fields!(ServiceRecord bytes))
    }

    /// The record that asks by nothing: each of its fields is 0.
    pub fn blank() -> ServiceRecord
        ensures { service_record_bytes result ≡ replicate 176 0 }
    {
        Self::read(&[0; SA_DATA_BYTES])
    }

    /// Writes the record; every bit outside its fields is 0.
    pub fn write(&self, bytes: &mut [u8; SERVICE_RECORD_BYTES])
        ensures encodes { Encodes bytes.new (service_record self.now) }
        ensures bytes { bytes.new ≡ service_record_bytes self.now }
    {
        self.put_over_zeros(bytes);
    }

    /// Whether the record agrees with `asked` on every component that the mask names.
    #[tactic(auto, unfolding(crate::specs::ServiceRecord::service_record_selected))]
    pub fn selected_by(&self, mask: u64, asked: &ServiceRecord) -> bool
        ensures { result ≡ service_record_selected mask self.now asked.now }
    {
        self.names_agree(mask, asked)
            && data8_front_agrees(mask, &self.service_data, &asked.service_data)
            && data8_back_agrees(mask, &self.service_data, &asked.service_data)
            && data16_agrees(mask, &self.service_data, &asked.service_data)
            && data32_agrees(mask, &self.service_data, &asked.service_data)
            && data64_agrees(mask, &self.service_data, &asked.service_data)
    }

    /// Whether it does on those components that are no data.
    #[tactic(auto, unfolding(crate::specs::ServiceRecord::names_selected))]
    fn names_agree(&self, mask: u64, asked: &ServiceRecord) -> bool
        ensures { result ≡ names_selected mask self.now asked.now }
    {
        service_record_components!(selected!(self asked mask))
            && agrees(
                mask,
                mask::SERVICE_NAME,
                self.service_name == asked.service_name,
            )
    }

    /// Asks by the field or the number in ServiceData of this name: sets its value, and gives the bits of the
    /// ComponentMask that name it. None, and nothing is set, if services have no such field or number or the value is
    /// wider than it. ServiceName is no number: see `ask_by_name`.
    pub fn ask_by(&mut self, field: &[u8], value: u128) -> Option<u64>
        ensures bits { result ≡ option_or (bits_of (asked_by field.now value service_record_asked))
            (bits_of (asked_by field.now value service_data_asked)) }
        ensures fields { service_fields self.new ≡ with_value value (asked_by field.now value service_record_asked)
            (service_fields self.old) }
        ensures name { self.new.service_name ≡ self.old.service_name }
        ensures data { self.new.service_data ≡ with_number value (asked_by field.now value service_data_asked) self.old.service_data }
    {
        let own = self.ask_by_field(field, value);
        let number = ask_by_number(&mut self.service_data, field, value);
        own.or(number)
    }

    /// Asks by ServiceName, and gives its bit of the ComponentMask.
    pub fn ask_by_name(&mut self, name: &[u8; 64]) -> u64
        ensures bits { result ≡ 64 }
        ensures set { self.new ≡ record self.old { service_name = name.now } }
    {
        self.service_name = *name;
        mask::SERVICE_NAME
    }

    /// The numbers in ServiceData that the mask names; all others are 0.
    pub fn numbers_asked(&self, mask: u64) -> [u8; 64]
        ensures { result ≡ numbers_asked mask self.now.service_data }
    {
        let mut bytes = [0; 64];
        copy_numbers(&mut bytes, mask, &self.service_data);
        bytes
    }

    /// Asks by the field of this name, as `ask_by` does, if it is no data.
    #[tactic(auto, unfolding(crate::specs::Asked::asked_by))]
    fn ask_by_field(&mut self, field: &[u8], value: u128) -> Option<u64>
        ensures bits { result ≡ bits_of (asked_by field.now value service_record_asked) }
        ensures fields { service_fields self.new ≡ with_value value (asked_by field.now value service_record_asked)
            (service_fields self.old) }
        ensures name { self.new.service_name ≡ self.old.service_name }
        ensures data { self.new.service_data ≡ self.old.service_data }
    {
        service_record_components!(set_asked!(self field value))
    }

    fn put_over_zeros(&self, bytes: &mut [u8; SERVICE_RECORD_BYTES])
        ensures fields { bytes.new ≡ put_all (replicate 176 0) (service_record self.now) }
        ensures fits { Fits (service_record self.now) }
    {
        *bytes = [0; SERVICE_RECORD_BYTES];
        service_record_layout!(write_fields!(self bytes))
    }
}

/// Asks by the number of this name in ServiceData, as `ask_by` does.
#[tactic(auto, unfolding(crate::specs::Asked::asked_by))]
fn ask_by_number(numbers: &mut [u8; 64], field: &[u8], value: u128) -> Option<u64>
    ensures bits { result ≡ bits_of (asked_by field.now value service_data_asked) }
    ensures set { numbers.new ≡ with_number value (asked_by field.now value service_data_asked) numbers.old }
{
    service_data_components!(set_number!(numbers field value))
}

/// Copies each number that the mask names.
fn copy_numbers(bytes: &mut [u8; 64], mask: u64, numbers: &[u8; 64])
    ensures { bytes.new ≡ put_all bytes.old (map (λ one. at one.off one.len (field numbers.now one.off one.len))
        (filter (is_named mask) service_data_asked)) }
{
    service_data_components!(copy_named!(bytes mask numbers))
}

/// Copies one number, if the mask names it.
#[tactic(auto, unfolding(crate::specs::ServiceRecord::with_number_named))]
fn copy_number<const OFF: usize, const LEN: usize>(
    bytes: &mut [u8; 64],
    mask: u64,
    bits: u64,
    numbers: &[u8; 64],
)
    requires some { 1 ≤ LEN }
    requires narrow { LEN ≤ 64 }
    requires within { OFF + LEN ≤ 512 }
    ensures { bytes.new ≡ with_number_named mask numbers.now bits OFF LEN bytes.old }
{
    if mask & bits == bits {
        put_bits::<OFF, LEN>(bytes, get_bits::<OFF, LEN>(numbers));
    }
}

/// Whether the first 8 numbers of 8 bits agree that the mask names.
#[tactic(auto, unfolding(crate::specs::ServiceRecord::data8_front_selected))]
fn data8_front_agrees(mask: u64, shown: &[u8; 64], asked: &[u8; 64]) -> bool
    ensures { result ≡ data8_front_selected mask shown.now asked.now }
{
    agrees(mask, 1 << 7, same_part(shown, asked, 0, 1))
        && agrees(mask, 1 << 8, same_part(shown, asked, 1, 1))
        && agrees(mask, 1 << 9, same_part(shown, asked, 2, 1))
        && agrees(mask, 1 << 10, same_part(shown, asked, 3, 1))
        && agrees(mask, 1 << 11, same_part(shown, asked, 4, 1))
        && agrees(mask, 1 << 12, same_part(shown, asked, 5, 1))
        && agrees(mask, 1 << 13, same_part(shown, asked, 6, 1))
        && agrees(mask, 1 << 14, same_part(shown, asked, 7, 1))
}

/// Whether the last 8 numbers of 8 bits agree that the mask names.
#[tactic(auto, unfolding(crate::specs::ServiceRecord::data8_back_selected))]
fn data8_back_agrees(mask: u64, shown: &[u8; 64], asked: &[u8; 64]) -> bool
    ensures { result ≡ data8_back_selected mask shown.now asked.now }
{
    agrees(mask, 1 << 15, same_part(shown, asked, 8, 1))
        && agrees(mask, 1 << 16, same_part(shown, asked, 9, 1))
        && agrees(mask, 1 << 17, same_part(shown, asked, 10, 1))
        && agrees(mask, 1 << 18, same_part(shown, asked, 11, 1))
        && agrees(mask, 1 << 19, same_part(shown, asked, 12, 1))
        && agrees(mask, 1 << 20, same_part(shown, asked, 13, 1))
        && agrees(mask, 1 << 21, same_part(shown, asked, 14, 1))
        && agrees(mask, 1 << 22, same_part(shown, asked, 15, 1))
}

/// Whether the 8 numbers of 16 bits agree that the mask names.
#[tactic(auto, unfolding(crate::specs::ServiceRecord::data16_selected))]
fn data16_agrees(mask: u64, shown: &[u8; 64], asked: &[u8; 64]) -> bool
    ensures { result ≡ data16_selected mask shown.now asked.now }
{
    agrees(mask, 1 << 23, same_part(shown, asked, 16, 2))
        && agrees(mask, 1 << 24, same_part(shown, asked, 18, 2))
        && agrees(mask, 1 << 25, same_part(shown, asked, 20, 2))
        && agrees(mask, 1 << 26, same_part(shown, asked, 22, 2))
        && agrees(mask, 1 << 27, same_part(shown, asked, 24, 2))
        && agrees(mask, 1 << 28, same_part(shown, asked, 26, 2))
        && agrees(mask, 1 << 29, same_part(shown, asked, 28, 2))
        && agrees(mask, 1 << 30, same_part(shown, asked, 30, 2))
}

/// Whether the 4 numbers of 32 bits agree that the mask names.
#[tactic(auto, unfolding(crate::specs::ServiceRecord::data32_selected))]
fn data32_agrees(mask: u64, shown: &[u8; 64], asked: &[u8; 64]) -> bool
    ensures { result ≡ data32_selected mask shown.now asked.now }
{
    agrees(mask, 1 << 31, same_part(shown, asked, 32, 4))
        && agrees(mask, 1 << 32, same_part(shown, asked, 36, 4))
        && agrees(mask, 1 << 33, same_part(shown, asked, 40, 4))
        && agrees(mask, 1 << 34, same_part(shown, asked, 44, 4))
}

/// Whether the 2 numbers of 64 bits agree that the mask names.
#[tactic(auto, unfolding(crate::specs::ServiceRecord::data64_selected))]
fn data64_agrees(mask: u64, shown: &[u8; 64], asked: &[u8; 64]) -> bool
    ensures { result ≡ data64_selected mask shown.now asked.now }
{
    agrees(mask, 1 << 35, same_part(shown, asked, 48, 8))
        && agrees(mask, 1 << 36, same_part(shown, asked, 56, 8))
}
