//! Types that may be sent without a copy.
ghost use Rattle.std.specs.Prelude.{◌≡◌, List, ℕ};
ghost use lib.Chars.{codes};
ghost use Rattle.iox2_config.specs.TypeDetailParts.{IsTypeLayout};
ghost use Rattle.iox2_config.specs.TypeLayouts.{units};

/// A type whose values may lie in memory that processes share.
///
/// An implementation says its name, size and alignment, and proves that the
/// alignment is a power of two and the size a multiple of it. `units k n`
/// of `specs/TypeLayouts.antt` proves that for `n` units of 2^k bytes.
pub trait ZeroCopySend {
    ghost type_name: { List ℕ };

    ghost SIZE: { ℕ };

    ghost ALIGNMENT: { ℕ };

    /// How many bytes a value takes, a multiple of the alignment.
    const SIZE: usize;

    /// The alignment of each value, a power of two.
    const ALIGNMENT: usize;

    /// The name by which processes agree on the type.
    fn type_name() -> &'static str
        ensures { result.now ≡ type_name };

    ghost lawful: { IsTypeLayout SIZE ALIGNMENT };
}

impl ZeroCopySend for () {
    ghost type_name = { codes "()" };

    ghost SIZE = { 0 };

    ghost ALIGNMENT = { 1 };

    const SIZE: usize = 0;

    const ALIGNMENT: usize = 1;

    fn type_name() -> &'static str {
        "()"
    }

    ghost lawful = { units 0 0 };
}

impl ZeroCopySend for bool {
    ghost type_name = { codes "bool" };

    ghost SIZE = { 1 };

    ghost ALIGNMENT = { 1 };

    const SIZE: usize = 1;

    const ALIGNMENT: usize = 1;

    fn type_name() -> &'static str {
        "bool"
    }

    ghost lawful = { units 0 1 };
}

impl ZeroCopySend for i8 {
    ghost type_name = { codes "i8" };

    ghost SIZE = { 1 };

    ghost ALIGNMENT = { 1 };

    const SIZE: usize = 1;

    const ALIGNMENT: usize = 1;

    fn type_name() -> &'static str {
        "i8"
    }

    ghost lawful = { units 0 1 };
}

impl ZeroCopySend for i16 {
    ghost type_name = { codes "i16" };

    ghost SIZE = { 2 };

    ghost ALIGNMENT = { 2 };

    const SIZE: usize = 2;

    const ALIGNMENT: usize = 2;

    fn type_name() -> &'static str {
        "i16"
    }

    ghost lawful = { units 1 1 };
}

impl ZeroCopySend for i32 {
    ghost type_name = { codes "i32" };

    ghost SIZE = { 4 };

    ghost ALIGNMENT = { 4 };

    const SIZE: usize = 4;

    const ALIGNMENT: usize = 4;

    fn type_name() -> &'static str {
        "i32"
    }

    ghost lawful = { units 2 1 };
}

impl ZeroCopySend for i64 {
    ghost type_name = { codes "i64" };

    ghost SIZE = { 8 };

    ghost ALIGNMENT = { 8 };

    const SIZE: usize = 8;

    const ALIGNMENT: usize = 8;

    fn type_name() -> &'static str {
        "i64"
    }

    ghost lawful = { units 3 1 };
}

impl ZeroCopySend for u8 {
    ghost type_name = { codes "u8" };

    ghost SIZE = { 1 };

    ghost ALIGNMENT = { 1 };

    const SIZE: usize = 1;

    const ALIGNMENT: usize = 1;

    fn type_name() -> &'static str {
        "u8"
    }

    ghost lawful = { units 0 1 };
}

impl ZeroCopySend for u16 {
    ghost type_name = { codes "u16" };

    ghost SIZE = { 2 };

    ghost ALIGNMENT = { 2 };

    const SIZE: usize = 2;

    const ALIGNMENT: usize = 2;

    fn type_name() -> &'static str {
        "u16"
    }

    ghost lawful = { units 1 1 };
}

impl ZeroCopySend for u32 {
    ghost type_name = { codes "u32" };

    ghost SIZE = { 4 };

    ghost ALIGNMENT = { 4 };

    const SIZE: usize = 4;

    const ALIGNMENT: usize = 4;

    fn type_name() -> &'static str {
        "u32"
    }

    ghost lawful = { units 2 1 };
}

impl ZeroCopySend for u64 {
    ghost type_name = { codes "u64" };

    ghost SIZE = { 8 };

    ghost ALIGNMENT = { 8 };

    const SIZE: usize = 8;

    const ALIGNMENT: usize = 8;

    fn type_name() -> &'static str {
        "u64"
    }

    ghost lawful = { units 3 1 };
}

impl ZeroCopySend for isize {
    ghost type_name = { codes "isize" };

    ghost SIZE = { 8 };

    ghost ALIGNMENT = { 8 };

    const SIZE: usize = 8;

    const ALIGNMENT: usize = 8;

    fn type_name() -> &'static str {
        "isize"
    }

    ghost lawful = { units 3 1 };
}

impl ZeroCopySend for usize {
    ghost type_name = { codes "usize" };

    ghost SIZE = { 8 };

    ghost ALIGNMENT = { 8 };

    const SIZE: usize = 8;

    const ALIGNMENT: usize = 8;

    fn type_name() -> &'static str {
        "usize"
    }

    ghost lawful = { units 3 1 };
}
