//! What a caller says of the parts of a message, where they lie, its layout, and which openers may
//! use the messages of a service.
ghost use Rattle.iox2sd_values.specs.Messages.{ReadsVariant, ReadsPart, ReadsDetails, ShapesPart};
ghost use Rattle.iox2sd_values.specs.Messages.{ShapesDetails, ChecksPart, ReadsPartOf, LaysOut};
ghost use Rattle.iox2sd_values.specs.Messages.{layout_answer, ReportsLayout, PlacesOf};
ghost use Rattle.iox2sd_values.specs.Messages.{places_answer, ReportsPlaces, part_answer, other};
ghost use Rattle.iox2sd_values.specs.Messages.{unsuited, fault_of, Compares, ComparesDetails};
ghost use Rattle.iox2sd_values.specs.Messages.{ReportsCompatible};
ghost use Rattle.std.specs.Prelude.{◌≡◌};

use iox2_config::types::{
    Difference, Incompatibility, MessageTypeDetails, Places, SampleLayout, TypeDetail,
    TypeDetailError, TypeVariant,
};
use iox2_texts::bounded::StringModificationError;
use iox2sd_common::given_or_return;
use iox2sd_common::status::Status;
use std::str;

/// What a caller says of one part of a message.
#[repr(C)]
#[derive(Clone, Copy)]
pub struct Part<'a> {
    /// The name of the part's type, in UTF-8: at most 256 bytes, each from 1 to 127.
    pub name: &'a [u8],
    /// 0: one value. 1: any number of values, one after another.
    pub variant: u32,
    /// How many bytes a value takes.
    pub size: usize,
    /// The alignment of each value, a power of two.
    pub alignment: usize,
}

/// What a caller says of the parts of a message, which lie one after another.
#[repr(C)]
#[derive(Clone, Copy)]
pub struct Details<'a> {
    /// The first part, which belongs to the system.
    pub header: Part<'a>,
    /// The second part, which users may choose.
    pub user_header: Part<'a>,
    /// The last part: what the message is for.
    pub payload: Part<'a>,
}

/// Which part of a message.
#[derive(Clone, Copy)]
enum Which {
    /// The first.
    Header,
    /// The second.
    UserHeader,
    /// The last.
    Payload,
}

/// What is wrong of which part.
#[derive(Clone, Copy)]
struct Fault {
    /// The part.
    part: Which,
    /// What is wrong of it.
    status: Status,
}

/// The variant of this number.
fn variant_of(number: u32) -> Option<TypeVariant>
    ensures { ReadsVariant number result }
{
    match number {
        0 => Some(TypeVariant::FixedSize),
        1 => Some(TypeVariant::Dynamic),
        _ => None,
    }
}

/// The type of a part.
fn read_part(part: &Part<'_>) -> Result<TypeDetail, Status>
    ensures { ReadsPart part.now result }
{
    let Some(variant) = variant_of(part.variant) else {
        return Err(Status::UnknownVariant);
    };
    let Ok(name) = str::from_utf8(part.name) else {
        return Err(Status::NotUtf8);
    };
    match TypeDetail::from_parts(variant, name, part.size, part.alignment) {
        Ok(detail) => Ok(detail),
        Err(TypeDetailError::Name(StringModificationError::InsertWouldExceedCapacity)) => {
            Err(Status::TooLong)
        }
        Err(TypeDetailError::Name(StringModificationError::InvalidCharacter)) => {
            Err(Status::IllegalByte)
        }
        Err(TypeDetailError::AlignmentNotPowerOfTwo) => Err(Status::BadAlignment),
    }
}

/// Whether the type of a part of a message is valid.
///
/// Refused are, in this order, NULL (`Null`), a number that is not that of a variant
/// (`UnknownVariant`), a name that is not UTF-8 (`NotUtf8`), has more than 256 bytes (`TooLong`) or
/// a byte that is not from 1 to 127 (`IllegalByte`), and an alignment that is not a power of two
/// (`BadAlignment`).
#[unsafe(no_mangle)]
pub extern "C" fn iox2sd_type_detail_check_at(part: &[Part<'_>]) -> u32
    ensures { ChecksPart part.now result }
{
    let part = given_or_return!(part, Status::Null.code());
    match read_part(part) {
        Ok(_) => Status::Done.code(),
        Err(status) => status.code(),
    }
}

/// The type of a part, or what is wrong with it.
fn part_of(part: &Part<'_>, which: Which) -> Result<TypeDetail, Fault>
    ensures { ReadsPartOf part.now which result }
{
    match read_part(part) {
        Ok(detail) => Ok(detail),
        Err(status) => Err(Fault {
            part: which,
            status,
        }),
    }
}

/// The types of all parts, or what is wrong with the first invalid part.
fn read_details(details: &Details<'_>) -> Result<MessageTypeDetails, Fault>
    ensures { ReadsDetails details.now result }
{
    Ok(MessageTypeDetails {
        header: part_of(&details.header, Which::Header)?,
        user_header: part_of(&details.user_header, Which::UserHeader)?,
        payload: part_of(&details.payload, Which::Payload)?,
    })
}

/// The size and the alignment of a part, without its name and its variant.
fn shape_part(part: &Part<'_>) -> Option<TypeDetail>
    ensures { ShapesPart part.now result }
{
    TypeDetail::from_parts(TypeVariant::FixedSize, "", part.size, part.alignment).ok()
}

/// The sizes and alignments of all parts, where the alignments are powers of two.
fn shape_details(details: &Details<'_>) -> Option<MessageTypeDetails>
    ensures { ShapesDetails details.now result }
{
    Some(MessageTypeDetails {
        header: shape_part(&details.header)?,
        user_header: shape_part(&details.user_header)?,
        payload: shape_part(&details.payload)?,
    })
}

/// The layout of a message.
#[repr(C)]
#[derive(Clone, Copy, Default)]
pub struct LayoutAnswer {
    /// The number of a [`Status`]. Where it is not that of `Done`, the other fields are 0.
    pub status: u32,
    /// How many bytes the message needs, at most 2^63 - 1.
    pub size: usize,
    /// The alignment of the message.
    pub alignment: usize,
}

/// The offsets of two parts of a message.
#[repr(C)]
#[derive(Clone, Copy, Default)]
pub struct PlacesAnswer {
    /// The number of a [`Status`]. Where it is not that of `Done`, the other fields are 0.
    pub status: u32,
    /// The offset of the user header.
    pub user_header: usize,
    /// The offset of the payload.
    pub payload: usize,
}

/// The answer with this layout, or with the cause for which there is none.
fn layout_answer(made: Result<SampleLayout, Status>) -> LayoutAnswer
    ensures { result ≡ layout_answer made }
{
    match made {
        Ok(room) => LayoutAnswer {
            status: Status::Done.code(),
            size: room.size(),
            alignment: room.align(),
        },
        Err(cause) => LayoutAnswer {
            status: cause.code(),
            ..LayoutAnswer::default()
        },
    }
}

/// The answer with these offsets, or with the cause for which there are none.
fn places_answer(made: Result<Places, Status>) -> PlacesAnswer
    ensures { result ≡ places_answer made }
{
    match made {
        Ok(places) => PlacesAnswer {
            status: Status::Done.code(),
            user_header: places.user_header,
            payload: places.payload,
        },
        Err(cause) => PlacesAnswer {
            status: cause.code(),
            ..PlacesAnswer::default()
        },
    }
}

/// The layout of a message whose payload has so many elements.
fn lay_out(details: &Details<'_>, elements: usize) -> Result<SampleLayout, Status>
    ensures { LaysOut details.now elements result }
{
    let details = shape_details(details).ok_or(Status::BadAlignment)?;
    details.sample_layout(elements).ok_or(Status::TooLarge)
}

/// The offsets of user header and payload behind a header at this offset.
fn places_of(details: &Details<'_>, header: usize) -> Result<Places, Status>
    ensures { PlacesOf details.now header result }
{
    let details = shape_details(details).ok_or(Status::BadAlignment)?;
    details.places(header).ok_or(Status::TooLarge)
}

/// The layout of a message whose payload has so many elements. Only sizes and alignments are
/// checked.
///
/// Errors, in this order: NULL (`Null`), an alignment that is no power of two (`BadAlignment`), and
/// a message that would pass 2^63 - 1 bytes (`TooLarge`).
#[unsafe(no_mangle)]
pub extern "C" fn iox2sd_message_sample_layout_at(
    details: &[Details<'_>],
    elements: usize,
) -> LayoutAnswer
    ensures { ReportsLayout details.now elements result }
{
    match details {
        [] => layout_answer(Err(Status::Null)),
        [first, ..] => layout_answer(lay_out(first, elements)),
    }
}

/// The offsets of user header and payload in a message with its header at the offset `header`. Only
/// sizes and alignments are checked.
///
/// Errors, in this order: NULL (`Null`), an alignment that is no power of two (`BadAlignment`), and
/// a payload whose offset would pass 2^64 - 1 (`TooLarge`).
#[unsafe(no_mangle)]
pub extern "C" fn iox2sd_message_places_at(details: &[Details<'_>], header: usize) -> PlacesAnswer
    ensures { ReportsPlaces details.now header result }
{
    match details {
        [] => places_answer(Err(Status::Null)),
        [first, ..] => places_answer(places_of(first, header)),
    }
}

/// What is wrong of whose part.
#[repr(C)]
#[derive(Clone, Copy)]
pub struct PartAnswer {
    /// The number of a [`Status`]. Where it is that of `Done`, the other fields are 0.
    pub status: u32,
    /// 0: of the opener's details, or between both. 1: of the service's.
    pub side: u32,
    /// 0: of the header. 1: of the user header. 2: of the payload.
    pub part: u32,
}

/// NULL stands for details.
const NULL: Fault = Fault {
    part: Which::Header,
    status: Status::Null,
};

/// The answer on a fault of this side.
fn part_answer(fault: Fault, side: u32) -> PartAnswer
    ensures { result ≡ part_answer fault side }
{
    PartAnswer {
        status: fault.status.code(),
        side,
        part: fault.part as u32,
    }
}

/// What is wrong where a header is another.
fn other(difference: Difference) -> Status
    ensures { result ≡ other difference }
{
    match difference {
        Difference::Name => Status::OtherName,
        Difference::Variant => Status::OtherVariant,
        Difference::Size => Status::OtherSize,
        Difference::Alignment => Status::OtherAlignment,
    }
}

/// What is wrong where a type of another part does not suit.
fn unsuited(difference: Difference) -> Status
    ensures { result ≡ unsuited difference }
{
    match difference {
        Difference::Alignment => Status::GreaterAlignment,
        _ => other(difference),
    }
}

/// What is wrong of which part of an opener that is not compatible.
fn fault_of(incompatibility: Incompatibility) -> Fault
    ensures { result ≡ fault_of incompatibility }
{
    match incompatibility {
        Incompatibility::Header(difference) => Fault {
            part: Which::Header,
            status: other(difference),
        },
        Incompatibility::UserHeader(difference) => Fault {
            part: Which::UserHeader,
            status: unsuited(difference),
        },
        Incompatibility::Payload(difference) => Fault {
            part: Which::Payload,
            status: unsuited(difference),
        },
    }
}

/// The answer on details of an opener and of a service.
fn compare(opener: &MessageTypeDetails, service: &MessageTypeDetails) -> PartAnswer
    ensures { Compares opener.now service.now result }
{
    match opener.first_incompatibility(service) {
        None => PartAnswer {
            status: Status::Done.code(),
            side: 0,
            part: 0,
        },
        Some(incompatibility) => part_answer(fault_of(incompatibility), 0),
    }
}

/// The answer on two details that were given.
fn judge(opener: &Details<'_>, service: &Details<'_>) -> PartAnswer
    ensures { ComparesDetails opener.now service.now result }
{
    let opener = match read_details(opener) {
        Ok(opener) => opener,
        Err(fault) => return part_answer(fault, 0),
    };
    match read_details(service) {
        Ok(service) => compare(&opener, &service),
        Err(fault) => part_answer(fault, 1),
    }
}

/// Whether an opener with the details `opener` may use the messages of a service with the details
/// `service`: the headers are equal, and user headers and payloads are equal but for their
/// alignments, which are at most those of the service.
///
/// Errors, in this order: NULL (`Null`), the opener's before the service's; invalid details, the
/// opener's first, with the first invalid part and its first cause: a number that is not that of a
/// variant (`UnknownVariant`), a name that is no UTF-8 (`NotUtf8`), has more than 256 bytes
/// (`TooLong`) or a byte that is not from 1 to 127 (`IllegalByte`), an alignment that is no power
/// of two (`BadAlignment`); an opener that is not compatible, with the first part that differs and
/// its first cause: another name (`OtherName`), another variant (`OtherVariant`), another size
/// (`OtherSize`), another alignment of the header (`OtherAlignment`), a greater one of another part
/// (`GreaterAlignment`).
#[unsafe(no_mangle)]
pub extern "C" fn iox2sd_message_is_compatible_to_at(
    service: &[Details<'_>],
    opener: &[Details<'_>],
) -> PartAnswer
    ensures { ReportsCompatible opener.now service.now result }
{
    let opener = given_or_return!(opener, part_answer(NULL, 0));
    let service = given_or_return!(service, part_answer(NULL, 1));
    judge(opener, service)
}
