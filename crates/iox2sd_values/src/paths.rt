//! Paths that are joined, where the system's files lie, and how they are called, where nothing else
//! is said.
ghost use Rattle.iox2sd_values.specs.Paths.{JoinsPath, JoinsFile, ReportsNamed};
ghost use Rattle.iox2sd_values.specs.Refusals.{MakesOr, ReportsBy};
ghost use Rattle.iox2sd_values.specs.Texts.{MakesPath, ChecksPath, MakesFileName, ChecksFileName};
ghost use Rattle.std.specs.Prelude.{◌≡◌};
ghost use Rattle.iox2_config.specs.Defaults.{default_service, default_node};
ghost use Rattle.iox2sd_common.specs.declared.status.Status.TheVariants as status;

use super::refusals::Refusal;
use super::texts::{iox2sd_file_name_check_at, iox2sd_path_check_at};
use iox2_config::config::{Config, Node, Service};
use iox2_texts::paths::{FileName, FilePath, Path};
use iox2sd_common::answers::{TextAnswer, no_text, write};
use iox2sd_common::status::Status;

/// The path that the bytes are, or that they are refused with this status.
fn read_path(bytes: &[u8], refused: Status) -> Result<Path, Refusal>
    ensures { MakesOr (MakesPath bytes.now) (ChecksPath bytes.now) refused result }
{
    match Path::new(bytes) {
        Ok(path) => Ok(path),
        Err(_) => Err(Refusal::OfText(refused, iox2sd_path_check_at(bytes).status)),
    }
}

/// The entry joined to the path.
fn join_paths(path: &[u8], entry: &[u8]) -> Result<Path, Refusal>
    ensures { JoinsPath path.now entry.now result }
{
    let mut joined = read_path(path, Status::BadPath)?;
    let entry = read_path(entry, Status::BadEntry)?;
    match joined.add_path_entry(&entry) {
        Ok(()) => Ok(joined),
        Err(_) => Err(Refusal::Because(Status::TooLong)),
    }
}

/// The name of a file that the bytes are, or that they are refused as an entry.
fn read_file_name(bytes: &[u8]) -> Result<FileName, Refusal>
    ensures { MakesOr (MakesFileName bytes.now) (ChecksFileName bytes.now) status.BadEntry result }
{
    match FileName::new(bytes) {
        Ok(file) => Ok(file),
        Err(_) => Err(Refusal::OfText(Status::BadEntry, iox2sd_file_name_check_at(bytes).status)),
    }
}

/// The path of the file in the directory.
fn join_file(path: &[u8], file: &[u8]) -> Result<FilePath, Refusal>
    ensures { JoinsFile path.now file.now result }
{
    let path = read_path(path, Status::BadPath)?;
    let file = read_file_name(file)?;
    match FilePath::from_path_and_file(&path, &file) {
        Ok(joined) => Ok(joined),
        Err(_) => Err(Refusal::Because(Status::TooLong)),
    }
}

/// Writes an entry joined to a path, with one `/` between them unless the path is empty or ends in
/// `/`.
///
/// Refused are, in this order, a wrong path (`BadPath`), a wrong entry, which is a path too
/// (`BadEntry`), and more than 255 bytes (`TooLong`).
#[unsafe(no_mangle)]
pub extern "C" fn iox2sd_path_add_path_entry_at(
    path: &[u8],
    entry: &[u8],
    out: &mut [u8],
) -> TextAnswer
    ensures { ReportsBy (JoinsPath path.now entry.now) out.old result out.new }
{
    match join_paths(path, entry) {
        Ok(joined) => write(joined.as_bytes(), out),
        Err(refusal) => refusal.text(),
    }
}

/// Writes the path of a file in a directory, with one `/` between them unless the directory is
/// empty or ends in `/`.
///
/// Refused are, in this order, a wrong path of the directory (`BadPath`), a wrong name of the file
/// (`BadEntry`), and more than 255 bytes (`TooLong`).
#[unsafe(no_mangle)]
pub extern "C" fn iox2sd_file_path_from_path_and_file_at(
    path: &[u8],
    file: &[u8],
    out: &mut [u8],
) -> TextAnswer
    ensures { ReportsBy (JoinsFile path.now file.now) out.old result out.new }
{
    match join_file(path, file) {
        Ok(joined) => write(joined.as_bytes(), out),
        Err(refusal) => refusal.text(),
    }
}

/// Writes the text of this number, of which these settings have some.
fn write_named(which: u32, service: &Service, node: &Node, out: &mut [u8]) -> TextAnswer
    requires service { service.now ≡ default_service }
    requires node { node.now ≡ default_node }
    ensures { ReportsNamed which out.old result out.new }
{
    match which {
        0 => write(b"/tmp/iceoryx2/", out),
        1 => write(b"iox2_", out),
        2 => write(service.directory.as_bytes(), out),
        3 => write(service.data_segment_suffix.as_bytes(), out),
        4 => write(service.static_config_storage_suffix.as_bytes(), out),
        5 => write(service.dynamic_config_storage_suffix.as_bytes(), out),
        6 => write(service.connection_suffix.as_bytes(), out),
        7 => write(service.event_connection_suffix.as_bytes(), out),
        8 => write(service.blackboard_mgmt_suffix.as_bytes(), out),
        9 => write(service.blackboard_data_suffix.as_bytes(), out),
        10 => write(node.directory.as_bytes(), out),
        11 => write(node.monitor_suffix.as_bytes(), out),
        12 => write(node.static_config_suffix.as_bytes(), out),
        13 => write(node.service_tag_suffix.as_bytes(), out),
        14 => write(node.port_tag_suffix.as_bytes(), out),
        15 => write(node.global_mgmt_suffix.as_bytes(), out),
        16 => write(Config::default_config_file_name().as_bytes(), out),
        17 => write(Config::default_config_file_path().as_bytes(), out),
        18 => write(Config::relative_config_path().as_bytes(), out),
        19 => write(Config::default_user_config_file_path().as_bytes(), out),
        _ => no_text(Status::UnknownText),
    }
}

/// Writes a text of the configuration that stands where nothing else is said.
///
/// Refused is a number that is not that of a text (`UnknownText`).
#[unsafe(no_mangle)]
pub extern "C" fn iox2sd_default_text_at(which: u32, out: &mut [u8]) -> TextAnswer
    ensures { ReportsNamed which out.old result out.new }
{
    write_named(which, &Service::default(), &Node::default(), out)
}

/// Writes the directory of services below a root path.
///
/// Refused are, in this order, a wrong root path (`BadPath`), and more than 255 bytes (`TooLong`).
#[unsafe(no_mangle)]
pub extern "C" fn iox2sd_service_dir_at(root: &[u8], out: &mut [u8]) -> TextAnswer
    ensures { ReportsBy (JoinsPath root.now default_service.directory) out.old result out.new }
{
    iox2sd_path_add_path_entry_at(root, Service::default().directory.as_bytes(), out)
}

/// Writes the directory of nodes below a root path. Refused as that of services is.
#[unsafe(no_mangle)]
pub extern "C" fn iox2sd_node_dir_at(root: &[u8], out: &mut [u8]) -> TextAnswer
    ensures { ReportsBy (JoinsPath root.now default_node.directory) out.old result out.new }
{
    iox2sd_path_add_path_entry_at(root, Node::default().directory.as_bytes(), out)
}
