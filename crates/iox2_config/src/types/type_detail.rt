//! What a service knows of a type.
ghost use Rattle.std.specs.Prelude.{◌≡◌};

use super::zero_copy_send::ZeroCopySend;
use iox2_texts::bounded::{StaticString, StringModificationError};
use std::marker::Model;

/// The greatest number of bytes of a type's name.
pub const MAX_TYPE_NAME_LENGTH: usize = 256;

/// The name of a type.
pub type TypeName = StaticString<MAX_TYPE_NAME_LENGTH>;

/// Whether a message has one value of a type, or a number of them that is known only at run time.
/// The default is `FixedSize`.
#[derive(Clone, Copy, Debug, PartialEq, Eq, Hash)]
pub enum TypeVariant {
    /// One value.
    FixedSize,
    /// Any number of values, one after another.
    Dynamic,
}

impl Default for TypeVariant {
    ghost use Rattle.std.specs.Prelude.{◌≡◌};
    ghost use Rattle.iox2_config.specs.declared.types.type_detail.TypeVariant.TheVariants.{
      FixedSize,
    };

    ghost is_default = { λ variant. variant ≡ FixedSize };

    fn default() -> Self {
        TypeVariant::FixedSize
    }
}

/// Why there are no details of a type.
#[derive(Clone, Copy, Debug, PartialEq, Eq)]
pub enum TypeDetailError {
    /// The name has more than 256 bytes, or a byte that is not from 1 to 127.
    Name(StringModificationError),
    /// The alignment is not a power of two. It is reported after what is wrong with the name.
    AlignmentNotPowerOfTwo,
}

/// What a service knows of a type: its name, how many of its values a message has, their size in
/// bytes and their alignment.
///
/// The alignment is a power of two. The default details, which mean that none were given, have the
/// alignment 0, the size 0 and an empty name.
///
/// From `crates/values_tests/src/config/types.rt`:
///
/// ```
/// let detail = TypeDetail::new::<T>(TypeVariant::FixedSize).expect(rt, "the name is legal");
/// assert_eq!(rt; [detail.type_name().as_str(), T::type_name()], [name; 2]);
/// assert_eq!(rt; [detail.size(), detail.alignment()], [size, alignment]);
/// ```
#[derive(Debug, Drop, PartialEq, Eq, Hash)]
pub struct TypeDetail {
    variant: TypeVariant,
    type_name: TypeName,
    size: usize,
    alignment: usize,
}

impl Model for TypeDetail {
    ghost use Rattle.iox2_config.specs.TypeDetailParts.{TypeDetailParts, IsTypeDetail};

    ghost Value = { TypeDetailParts };

    ghost view = { λ d. record {
      variant = d.variant;
      type_name = d.type_name;
      size = d.size;
      alignment = d.alignment;
    } };

    ghost invariant = { λ d. IsTypeDetail (record {
      variant = d.variant;
      type_name = d.type_name;
      size = d.size;
      alignment = d.alignment;
    }) };

    ghost inverse = { λ parts. record {
      variant = parts.variant;
      type_name = parts.type_name;
      size = parts.size;
      alignment = parts.alignment;
    } };
}

impl Default for TypeDetail {
    ghost use Rattle.std.specs.Prelude.{◌≡◌};
    ghost use Rattle.iox2_config.specs.TypeDetailParts.{default_detail};

    ghost is_default = { λ d. d ≡ default_detail };

    fn default() -> Self {
        TypeDetail {
            variant: TypeVariant::default(),
            type_name: StaticString::new(),
            size: 0,
            alignment: 0,
        }
    }
}

impl TypeDetail {
    ghost use Rattle.iox2_config.specs.TypeDetailParts.{IsTypeDetail, IsAlignment};
    ghost use Rattle.iox2_config.specs.TypeDetails.{detail, MakesDetail, DescribesType};

    /// The details of the type `T`.
    ///
    /// An invalid name is refused.
    pub fn new<T: ZeroCopySend>(variant: TypeVariant) -> Result<Self, TypeDetailError>
        ensures { DescribesType (detail variant T.type_name T.SIZE T.ALIGNMENT) result }
    {
        Self::from_parts(variant, T::type_name(), T::SIZE, T::ALIGNMENT)
    }

    /// The details with these parts.
    ///
    /// An invalid name is refused, and then an alignment that is not a power of two.
    pub fn from_parts(
        variant: TypeVariant,
        type_name: &str,
        size: usize,
        alignment: usize,
    ) -> Result<Self, TypeDetailError>
        ensures { MakesDetail (detail variant type_name.now size alignment) result }
    {
        let type_name = match TypeName::try_from(type_name) {
            Ok(name) => name,
            Err(error) => return Err(TypeDetailError::Name(error)),
        };
        if !alignment.is_power_of_two() {
            return Err(TypeDetailError::AlignmentNotPowerOfTwo);
        }
        Ok(TypeDetail {
            variant,
            type_name,
            size,
            alignment,
        })
    }

    /// Whether a message has one value of the type or a number that is known only at run time.
    pub fn variant(&self) -> TypeVariant
        ensures { result ≡ self.now.variant }
    {
        self.variant
    }

    /// The name of the type.
    pub fn type_name(&self) -> &TypeName
        ensures { result.now ≡ self.now.type_name }
    {
        &self.type_name
    }

    /// How many bytes a value takes.
    pub fn size(&self) -> usize
        ensures { result ≡ self.now.size }
    {
        self.size
    }

    /// The alignment of each value: a power of two, or 0 in the default details.
    pub fn alignment(&self) -> usize
        ensures value { result ≡ self.now.alignment }
        ensures power { IsAlignment result }
        ensures legal { IsTypeDetail self.now }
    {
        self.alignment
    }

    /// Equal details.
    pub fn copied(&self) -> Self
        ensures { result ≡ self.now }
    {
        TypeDetail {
            type_name: self.type_name.copied(),
            ..*self
        }
    }
}
