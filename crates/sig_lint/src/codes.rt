//! The words of faults: the file and the row, and the rule that is broken.
//!
//! In `signatures row 2: L8 expression E2 at 5` the site is row 2 of the signature file, and the
//! code is the words `L8 expression E2 at ` with the place 5. A code is handed out in these two
//! parts, so that it can be written without memory.

ghost use Rattle.std.specs.Prelude.{◌≡◌, ◌++◌, codes, decimal};
ghost use Rattle.sig_lint.specs.Codes.{code_text, code_words, expression_code_text, file_name, site_of};

use sig_expr::ExprError;
use sig_table::{TableError, TableFile};

/// Where in a table a fault stands.
#[derive(Clone, Copy, Debug, PartialEq, Eq)]
pub enum Site {
    Nowhere,
    File(TableFile),
    Row(TableFile, usize),
}

/// The words of the rule that is broken, and the place behind them, where there is one.
#[derive(Clone, Copy, Debug, PartialEq, Eq)]
pub struct Code {
    pub words: &'static str,
    pub place: Option<usize>,
}

impl Code {
    fn alone(words: &'static str) -> Code
        ensures { code_words result ≡ words.now }
    {
        Code { words, place: None }
    }

    fn at(words: &'static str, place: usize) -> Code
        ensures { code_words result ≡ words.now ++ decimal place }
    {
        Code {
            words,
            place: Some(place),
        }
    }
}

/// The file and the row of a fault.
pub fn site_of(error: TableError) -> Site
    ensures { result ≡ site_of error }
{
    match error {
        TableError::Read { .. } | TableError::OutOfMemory => Site::Nowhere,
        TableError::Header { file } => Site::File(file),
        TableError::Fields { file, row } | TableError::Puid { file, row } => Site::Row(file, row),
        TableError::SignatureNumber { row }
        | TableError::Position { row }
        | TableError::Offset { row }
        | TableError::Expression { row, .. }
        | TableError::SignatureOfTwo { row }
        | TableError::TooManySequences { row }
        | TableError::TooManySlots { row }
        | TableError::TooManyFormats { row } => Site::Row(TableFile::Signatures, row),
        TableError::PriorityUnknown { row }
        | TableError::PrioritySelf { row }
        | TableError::PriorityTwice { row }
        | TableError::PriorityCycle { row } => Site::Row(TableFile::Priorities, row),
    }
}

/// The name of a file of the table.
pub fn file_name(file: TableFile) -> &'static str
    ensures { result.now ≡ file_name file }
{
    match file {
        TableFile::Signatures => "signatures",
        TableFile::Priorities => "priorities",
    }
}

/// What is wrong with a table.
pub fn code_of(error: TableError) -> Code
    ensures { code_words result ≡ code_text error }
{
    match error {
        TableError::Read { .. } => Code::alone("read failed"),
        TableError::Header { .. } => Code::alone("L2 header"),
        TableError::Fields { .. } => Code::alone("L3 fields"),
        TableError::Puid { .. } => Code::alone("L4 puid"),
        TableError::SignatureNumber { .. } => Code::alone("L5 signature number"),
        TableError::Position { .. } => Code::alone("L6 position"),
        TableError::Offset { .. } => Code::alone("L7 offset"),
        TableError::Expression { row: _, error } => expression_code(error),
        TableError::SignatureOfTwo { .. } => Code::alone("L9 signature of two formats"),
        TableError::TooManySequences { .. } => Code::alone("L10 too many sequences"),
        TableError::TooManySlots { .. } => Code::alone("L11 too many slots"),
        TableError::TooManyFormats { .. } => Code::alone("L12 too many formats"),
        TableError::PriorityUnknown { .. } => Code::alone("L13 unknown format"),
        TableError::PrioritySelf { .. } => Code::alone("L14 format over itself"),
        TableError::PriorityTwice { .. } => Code::alone("L15 pair twice"),
        TableError::PriorityCycle { .. } => Code::alone("L17 cycle of priorities"),
        TableError::OutOfMemory => Code::alone("out of memory"),
    }
}

// What is wrong with an expression: its rule's number, and its place where it has one.
fn expression_code(error: ExprError) -> Code
    ensures { code_words result ≡ codes "L8 expression " ++ expression_code_text error }
{
    match error {
        ExprError::TooLong => Code::alone("L8 expression E1"),
        ExprError::Syntax { place } => Code::at("L8 expression E2 at ", place),
        ExprError::GapNumber { place } => Code::at("L8 expression E3 at ", place),
        ExprError::GapEmpty { place } => Code::at("L8 expression E4 at ", place),
        ExprError::GapOrder { place } => Code::at("L8 expression E5 at ", place),
        ExprError::RangeOrder { place } => Code::at("L8 expression E6 at ", place),
        ExprError::ClassEmpty { place } => Code::at("L8 expression E7 at ", place),
        ExprError::OutOfMemory => Code::alone("L8 expression E8"),
        ExprError::RangeLength { place } => Code::at("L8 expression E9 at ", place),
        ExprError::BracketTooLong { place } => Code::at("L8 expression E10 at ", place),
    }
}
