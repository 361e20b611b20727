//! The text of a file of settings: its settings, or what is wrong with it.
ghost use Rattle.std.specs.Prelude.{◌≡◌, ◌<◌, IfOk, IsSome, Some, length, map, slice_get};
ghost use Rattle.iox2_config_file.specs.Answers.{ReadsAll};
ghost use Rattle.iox2_config_file.specs.Read.{fault_view};
ghost use Rattle.iox2sd_config.specs.Faults.{c_fault};
ghost use Rattle.iox2sd_config.specs.Files.{Answers, ListsFaults, PutsFaults, PutsListed};
ghost use Rattle.iox2sd_config.specs.Files.{ReadsInto, ReportsFile, Settles, ReportsFirst};
ghost use Rattle.iox2sd_config.specs.Files.{read_answer, refused_answer};
ghost use Rattle.toml.specs.Parse.{parse_document};

use crate::config::{PlainConfig, config_of};
use crate::fault::{PlainFault, plain_fault, plain_unread, sort_key_at, unread_status};
use config_report::{Positions, key_position, parse_file};
use iox2_config_file::{FileContents, SettingFault};
use iox2sd_common::answers::{CountAnswer, count, fit_status, put};
use iox2sd_common::status::Status;
use std::alloc::{AllocError, Global};

/// What reading a file gave.
#[repr(C)]
#[derive(Clone, Copy)]
pub struct ConfigAnswer {
    /// The number of a [`Status`]; that of the first fault where the file has one.
    pub status: u32,
    /// How many keys no setting has; 0 where the status is not that of `Done`.
    pub unknown: usize,
    /// The first fault, in the order of the file.
    pub fault: PlainFault,
}

impl ConfigAnswer {
    /// The settings were read, beside so many unknown keys.
    fn read(unknown: usize) -> ConfigAnswer
        ensures { result ≡ read_answer unknown }
    {
        let fault = PlainFault::with_reason(Status::Done, "");
        ConfigAnswer {
            status: fault.status,
            unknown,
            fault,
        }
    }

    /// No settings were read.
    fn refused(fault: PlainFault) -> ConfigAnswer
        ensures { result ≡ refused_answer fault }
    {
        ConfigAnswer {
            status: fault.status,
            unknown: 0,
            fault,
        }
    }
}

/// Some faults of a text as plain values, each at its position.
#[tactic(auto, using(config_report::proofs::Lines::all_mapped))]
fn plain_faults(
    alloc: Global,
    text: &str,
    faults: &[SettingFault],
) -> Result<Vec<PlainFault>, AllocError>
    requires { IsSome (parse_document text.now) }
    ensures { IfOk result (λ plain.
        plain.items ≡ map (c_fault text.now) (map fault_view faults.now)) }
{
    let mut positions = Positions::of(text);
    let mut plain = Vec::new(alloc);
    for fault in faults {
        let position = key_position(alloc, &mut positions, fault)?;
        plain.push(plain_fault(alloc, fault, position)?)?;
    }
    Ok(plain)
}

/// Some faults of a text as plain values, in the order of the file.
fn listed_faults(
    alloc: Global,
    text: &str,
    faults: &[SettingFault],
) -> Result<Vec<PlainFault>, AllocError>
    requires { IsSome (parse_document text.now) }
    ensures { IfOk result (λ listed. ListsFaults text.now faults.now listed.items) }
{
    let mut plain = plain_faults(alloc, text, faults)?;
    plain.sort_by_key(|fault| sort_key_at(fault.line, fault.column))?;
    Ok(plain)
}

/// The first of some faults of a text, in the order of the file.
fn first_fault(alloc: Global, text: &str, faults: &[SettingFault]) -> PlainFault
    requires parsed { IsSome (parse_document text.now) }
    requires some { 0 < length faults.now }
    ensures { ReportsFirst text.now faults.now result }
{
    match listed_faults(alloc, text, faults) {
        Ok(listed) => first_of(listed.as_slice()),
        Err(_) => PlainFault::of(Status::NoMemory),
    }
}

/// The first of some plain faults.
fn first_of(listed: &[PlainFault]) -> PlainFault
    requires { 0 < length listed.now }
    ensures { Some result ≡ slice_get listed.now 0 }
{
    listed[0]
}

/// Writes the settings of a file of these contents to a struct, unless it has a fault.
#[inline(never)]
fn read_contents(
    alloc: Global,
    text: &str,
    contents: &FileContents,
    plain: &mut PlainConfig,
) -> ConfigAnswer
    requires { ReadsAll text.now contents.now }
    ensures { Settles text.now contents.now contents.now.config plain.old result
        plain.new }
{
    match &contents.config {
        Some(config) => {
            *plain = config_of(config);
            ConfigAnswer::read(contents.unknown.len())
        }
        None => ConfigAnswer::refused(first_fault(alloc, text, contents.faults.as_slice())),
    }
}

/// Reads a file into a struct.
fn read_into(alloc: Global, bytes: &[u8], plain: &mut PlainConfig) -> ConfigAnswer
    ensures { ReadsInto bytes.now plain.old result plain.new }
{
    match parse_file(alloc, bytes) {
        Ok((text, contents)) => read_contents(alloc, text, &contents, plain),
        Err(unread) => ConfigAnswer::refused(plain_unread(&unread)),
    }
}

/// Reads the text of a file of settings into a struct. A key that the file does not have has its
/// default.
///
/// Refused are, in this order, NULL (`Null`); a text that is not UTF-8 (`NotUtf8`), is too deep
/// (`TooDeep`) or no TOML (`NotToml`), with the position where it is found; and the first key, in
/// the order of the file, whose value is not allowed, with its status and its position. Want of
/// memory (`NoMemory`) is refused at any point. Then the struct is as it was.
#[unsafe(no_mangle)]
pub extern "C" fn iox2sd_config_read_at(
    alloc: Global,
    text: &[u8],
    out: &mut [PlainConfig],
) -> ConfigAnswer
    ensures { Answers text.now out.old result out.new }
{
    match out {
        [] => ConfigAnswer::refused(PlainFault::of(Status::Null)),
        [first, ..] => read_into(alloc, text, first),
    }
}

/// Writes faults to the front of the array, where they fit.
fn put_faults(listed: &[PlainFault], out: &mut [PlainFault]) -> CountAnswer
    ensures { PutsFaults listed.now out.old result out.new }
{
    count(fit_status(put(listed, out)), listed.len())
}

/// Writes some faults of a text in its order, where they fit.
fn put_listed(
    alloc: Global,
    text: &str,
    faults: &[SettingFault],
    out: &mut [PlainFault],
) -> CountAnswer
    requires { IsSome (parse_document text.now) }
    ensures { PutsListed text.now faults.now out.old result out.new }
{
    match listed_faults(alloc, text, faults) {
        Ok(listed) => put_faults(listed.as_slice(), out),
        Err(_) => count(Status::NoMemory, 0),
    }
}

/// Writes all faults of a file to the front of the array, in the order of the file, where they fit,
/// and returns how many there are; the other elements stay as they were.
///
/// Refused are, in this order, a text that is not UTF-8 (`NotUtf8`), is too deep (`TooDeep`) or no
/// TOML (`NotToml`), and too short an array (`BufferTooShort`), with the length that it needs. Want
/// of memory (`NoMemory`) is refused at any point. Then the array is as it was.
#[unsafe(no_mangle)]
pub extern "C" fn iox2sd_config_faults_at(
    alloc: Global,
    text: &[u8],
    out: &mut [PlainFault],
) -> CountAnswer
    ensures { ReportsFile text.now out.old result out.new }
{
    match parse_file(alloc, text) {
        Ok((text, contents)) => put_listed(alloc, text, contents.faults.as_slice(), out),
        Err(unread) => count(unread_status(&unread), 0),
    }
}
