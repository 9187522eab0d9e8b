//! The text of the page of `serve`.

/// The page of `serve`.
pub const SERVE_PAGE: &str = "\
Usage: cpmhost serve [--system IMAGE] [--frames N] [--folder FOLDER]
                     [--journal FILE | --resume FILE [--compact]]

Serve a host of up to 64 sessions to another program: read requests on standard
input, an object of JSON on each line, and write a reply to each on standard
output, a line too. docs/PROTOCOL.md lists them. At the end of the input all
sessions are closed, and nothing is written that wasn't asked for.

Options:
  --system IMAGE
              the image of the system drive P, which all sessions read; it is
              blank unless this is given
  --frames N  let all sessions together write N pages of 256 bytes; N is a
              number from 16 to 16384, and 16384 unless this is given
  --folder FOLDER
              the folder that the requests' files are in. No name in a request
              leads out of it. Without it no request has a file
  --journal FILE
              keep in FILE what changes the host, before it is replied, so that
              a host that is lost can be made again. FILE must be new
  --resume FILE
              make the host again of the journal in FILE, with its system drive
              and as many frames, and go on with that journal
  --compact   put a journal of savings in the place of that one first, some 515
              KB for each session, which makes the same host without its steps
  -h, --help  print this page

Examples:
  cpmhost serve --folder class
  cpmhost serve --folder class --journal class.journal
  cpmhost serve --folder class --resume class.journal
";
