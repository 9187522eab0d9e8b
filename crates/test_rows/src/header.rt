//! The first line of a file of rows.

/// What the first line says: `12 rows of machines`, or `3 wrong rows of machines`, each of which must fail.
#[derive(Clone, Copy)]
pub struct Header<'a> {
    pub rows: u64,
    pub are_wrong: bool,
    pub subject: &'a str,
}

impl<'a> Header<'a> {
    /// What the first line of a text says, if it is one.
    pub fn of(text: &'a str) -> Option<Header<'a>> {
        let (rows, rest) = text.lines().next()?.split_once(' ')?;
        let rows = rows.parse::<u64>().ok()?;
        let (subject, are_wrong) = match rest.strip_prefix("rows of ") {
            Some(subject) => (subject, false),
            None => (rest.strip_prefix("wrong rows of ")?, true),
        };
        Some(Header {
            rows,
            are_wrong,
            subject,
        })
    }
}
