//! The text of `--help`.

/// How the program is used.
pub(crate) const HELP: &str = "usage: iox2-check [--strict] [--format text|json] FILE..
       iox2-check [--strict] --show FILE
       iox2-check [--strict] [--format text|json] --compare FILE FILE
       iox2-check --default > iceoryx2.toml
       iox2-check --schema > iceoryx2.schema.json

Checks files of settings of iceoryx2, version 0.9.3, and writes what is wrong in them, with the
line and the column, and what was probably meant: a line for each error and each warning, and a
last line that counts them. The name - is the standard input.

  --strict            let warnings count as errors
  --format json       write an object of JSON on a line for each error and each warning
  --show              write all settings, with a mark where they differ from the defaults, and the
                      directories, files and chunks that follow
  --compare           write which settings of two files differ; those of the table global must be
                      the same in all processes of one system
  --default           write the file of the default settings
  --schema            write the JSON Schema of these files, for editors
  -h, --help          write this text
  --version           write the version

The status is 0, or 1 for an error (with --strict for a warning too), 2 for bad arguments or a file
that cannot be read, 3 where memory was refused or a stream failed. docs/CONFIG.md has the settings.
";
