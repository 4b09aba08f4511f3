//! A text, and a table of where its lists end; the forms of a list are found from its bytes.
ghost use Rattle.fort_sexpr.specs.Nodes.{AreListed};

/// A form: where it begins, and how many lists open before it.
///
/// It is a list where a parenthesis stands at its beginning, and the number is then its own. A word
/// ends where its bytes do.
#[derive(Clone, Copy)]
pub(crate) struct FormNode {
    pub from: u32,
    pub list: u32,
}

/// What can't be told of a list without reading it.
#[derive(Clone, Copy)]
pub(crate) struct ListNode {
    /// The offset behind its closing parenthesis.
    pub to: u32,
    /// How many forms it has.
    pub count: u32,
    /// The number of the first list that opens behind it.
    pub behind: u32,
}

/// A text and its lists, in the order in which they open.
#[derive(Drop)]
pub(crate) struct Arena {
    pub bytes: Vec<u8>,
    pub lists: Vec<ListNode>,
    ghost listed: { AreListed bytes.items lists.items },
}
