//! Why an export refuses.
ghost use Rattle.std.specs.Prelude.{◌≡◌};
ghost use Rattle.iox2sd_values.specs.Refusals.{numbers_of, refused_count, refused_field};
ghost use Rattle.iox2sd_values.specs.Refusals.{refused_place, refused_text};

use iox2sd_common::answers::{CountAnswer, PlaceAnswer, TextAnswer};
use iox2sd_common::read_settings::FieldAnswer;
use iox2sd_common::status::Status;

/// Why an export refuses.
#[derive(Clone, Copy)]
pub(super) enum Refusal {
    /// For this, which says all.
    Because(Status),
    /// A text is refused, as this says, and its check answers the status of this number.
    OfText(Status, u32),
}

impl Refusal {
    /// The numbers of the status and of the cause, 0 where no text is refused.
    fn numbers(self) -> (u32, u32)
        ensures { result ≡ numbers_of self }
    {
        match self {
            Refusal::Because(status) => (status.code(), 0),
            Refusal::OfText(status, cause) => (status.code(), cause),
        }
    }

    /// The answer that reports it of what is at this index.
    pub(super) fn place(self, at: usize) -> PlaceAnswer
        ensures { result ≡ refused_place self at }
    {
        let (status, cause) = self.numbers();
        PlaceAnswer { status, cause, at }
    }

    /// The answer that reports it in place of a count.
    pub(super) fn count(self) -> CountAnswer
        ensures { result ≡ refused_count self }
    {
        let (status, cause) = self.numbers();
        CountAnswer {
            status,
            cause,
            count: 0,
        }
    }

    /// The answer that reports it in place of a text.
    pub(super) fn text(self) -> TextAnswer
        ensures { result ≡ refused_text self }
    {
        let (status, cause) = self.numbers();
        TextAnswer {
            status,
            cause,
            length: 0,
        }
    }

    /// The answer that reports it beside fields, of which none is invalid.
    pub(super) fn field(self) -> FieldAnswer
        ensures { result ≡ refused_field self }
    {
        let (status, cause) = self.numbers();
        FieldAnswer {
            status,
            field: 0,
            cause,
        }
    }
}
