//! The texts of the pages of `disk` and of its commands.

/// The page of `disk`.
pub const DISK_PAGE: &str = "\
Usage: cpmhost disk COMMAND IMAGE [WORDS..] [OPTIONS..]

Make the image of a disk, or work with the files in one.

Commands:
  new         write the image of a blank disk
  list        list the files in an image
  put         copy files into an image
  get         copy files out of an image
  remove      remove files from an image
  rename      give a file in an image another name

Options:
  -h, --help  print this page, or after a command of disk its page

Examples:
  cpmhost help disk put
  cpmhost disk get --help
";

/// The page of `disk new`.
pub const DISK_NEW_PAGE: &str = "\
Usage: cpmhost disk new IMAGE [--large]

Write the image of a blank disk to the file IMAGE.

Options:
  --large     make a large disk, of 2,105,344 bytes in place of 256,256
  -h, --help  print this page

Examples:
  cpmhost disk new work.img
  cpmhost disk new large.img --large
";

/// The page of `disk list`.
pub const DISK_LIST_PAGE: &str = "\
Usage: cpmhost disk list IMAGE [--user N]

List the files in the image IMAGE of a disk.

Options:
  --user N    the files of user N: N is a number from 0 to 15; where it is left
              out, those of all users
  -h, --help  print this page

Examples:
  cpmhost disk list work.img
";

/// The page of `disk put`.
pub const DISK_PUT_PAGE: &str = "\
Usage: cpmhost disk put IMAGE FILE.. [--user N] [--text] [--read-only]
       [--system]

Copy files into the image IMAGE of a disk, each under its own name or, as
FILE=NAME.TYP, under another.

Options:
  --user N    the files of user N: N is a number from 0 to 15; where it is left
              out it is 0
  --text      change the ends of lines to those of CP/M
  --read-only
              mark the files as read-only
  --system    mark the files as files of the system
  -h, --help  print this page

Examples:
  cpmhost disk put work.img life.com notes.txt=NOTES.DOC --user 3
";

/// The page of `disk get`.
pub const DISK_GET_PAGE: &str = "\
Usage: cpmhost disk get IMAGE NAME.TYP.. [--user N] [--text] [--to PATH]
       [--force] [--dry-run]

Copy files out of the image IMAGE of a disk.

Options:
  --user N    the files of user N: N is a number from 0 to 15; where it is left
              out it is 0
  --text      change the ends of lines back from those of CP/M
  --to PATH   write into the folder PATH, or the one file to the file PATH;
              files get their names in small letters where PATH is a folder or
              left out
  --force     replace files that are there; without it they are refused, and
              nothing is written
  --dry-run   print the files that would be written, and write none
  -h, --help  print this page

Examples:
  cpmhost disk get work.img NOTES.DOC --text
  cpmhost disk get work.img LIFE.COM PIP.COM --to programs
";

/// The page of `disk remove`.
pub const DISK_REMOVE_PAGE: &str = "\
Usage: cpmhost disk remove IMAGE NAME.TYP.. [--user N]

Remove files from the image IMAGE of a disk.

Options:
  --user N    the files of user N: N is a number from 0 to 15; where it is left
              out it is 0
  -h, --help  print this page

Examples:
  cpmhost disk remove work.img NOTES.BAK
";

/// The page of `disk rename`.
pub const DISK_RENAME_PAGE: &str = "\
Usage: cpmhost disk rename IMAGE NEW=OLD [--user N]

Give the file OLD in the image IMAGE of a disk the name NEW.

Options:
  --user N    the files of user N: N is a number from 0 to 15; where it is left
              out it is 0
  -h, --help  print this page

Examples:
  cpmhost disk rename work.img NOTES.TXT=NOTES.DOC
";
