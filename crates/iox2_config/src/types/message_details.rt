//! What a service knows of its messages.
ghost use Rattle.std.specs.Prelude.{◌≡◌};

use super::type_detail::{TypeDetail, TypeDetailError, TypeVariant};
use super::zero_copy_send::ZeroCopySend;

/// What a service knows of the parts of its messages, which lie one after another.
///
/// From `crates/services_tests/src/examples/services.rt`:
///
/// ```
/// MessageTypeDetails {
///     header: part(rt, "Header", TypeVariant::FixedSize, (40, 8)),
///     user_header: part(rt, "()", TypeVariant::FixedSize, (0, 1)),
///     payload: part(rt, "u64", TypeVariant::Dynamic, (8, alignment)),
/// }
/// ```
#[derive(Debug, Drop, PartialEq, Eq, Hash)]
pub struct MessageTypeDetails {
    /// The first part, which belongs to the system.
    pub header: TypeDetail,
    /// The second part, which users may choose.
    pub user_header: TypeDetail,
    /// The last part: what the message is for.
    pub payload: TypeDetail,
}

impl Default for MessageTypeDetails {
    ghost use Rattle.std.specs.Prelude.{◌≡◌};
    ghost use Rattle.iox2_config.specs.DefaultTypes.{default_details};

    ghost is_default = { λ details. details ≡ default_details };

    fn default() -> Self {
        MessageTypeDetails {
            header: TypeDetail::default(),
            user_header: TypeDetail::default(),
            payload: TypeDetail::default(),
        }
    }
}

impl MessageTypeDetails {
    ghost use Rattle.iox2_config.specs.declared.types.type_detail.TypeVariant.TheVariants.{
      FixedSize,
    };
    ghost use Rattle.iox2_config.specs.TypeDetails.{detail, message, DescribesMessage};

    /// The details of messages with these three types. There is one header and one user header.
    ///
    /// The first of the three names that is invalid is refused.
    pub fn from<Header: ZeroCopySend, UserHeader: ZeroCopySend, Payload: ZeroCopySend>(
        payload_variant: TypeVariant,
    ) -> Result<Self, TypeDetailError>
        ensures { DescribesMessage (message
            (detail FixedSize Header.type_name Header.SIZE Header.ALIGNMENT)
            (detail FixedSize UserHeader.type_name UserHeader.SIZE UserHeader.ALIGNMENT)
            (detail payload_variant Payload.type_name Payload.SIZE Payload.ALIGNMENT)) result }
    {
        let header = TypeDetail::new::<Header>(TypeVariant::FixedSize)?;
        let user_header = TypeDetail::new::<UserHeader>(TypeVariant::FixedSize)?;
        let payload = TypeDetail::new::<Payload>(payload_variant)?;
        Ok(MessageTypeDetails {
            header,
            user_header,
            payload,
        })
    }

    /// Equal details.
    pub fn copied(&self) -> Self
        ensures { result ≡ self.now }
    {
        MessageTypeDetails {
            header: self.header.copied(),
            user_header: self.user_header.copied(),
            payload: self.payload.copied(),
        }
    }
}
