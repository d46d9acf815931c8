//! The laws of keys. Each function's contract is its law; it does nothing.

ghost use Rattle.std.specs.Prelude.{◌≡◌};
ghost use Rattle.pkey_rules.specs.declared.key_table.TheConstants.{PARTITIONS};
ghost use Rattle.pkey_rules.specs.declared.p_key.TheConstants.{BASES, DEFAULT_BASE};
ghost use Rattle.pkey_rules.specs.Laws.{KeysAreStored};

/// A stored P_Key table of keys of different bases, with empty places behind, means these keys: it accepts and
/// holds what a `KeyTable` of them does. The function does nothing; its contract is the law.
pub fn keys_are_stored()
    ensures { KeysAreStored }
{}

/// The numbers of partitions, written out. How many there may be is ours; the bases are the standard's (IBA
/// volume 1, 14.2.5.7).
pub fn the_numbers()
    ensures partitions { PARTITIONS ≡ 128 }
    ensures bases { BASES ≡ 0x8000 }
    ensures default_base { DEFAULT_BASE ≡ 0x7fff }
{}
