// The kinds of lines, which their first words tell.
ghost use Rattle.std.specs.Prelude.{◌≡◌};
ghost use Rattle.std.specs.Option.{option_or};
ghost use Rattle.buffers_mode.specs.Keywords.{change_keyword, look_keyword, callback_keyword, keyword_of};

use script_text::is_word;

/// The kind of a line.
///
/// Own.
#[derive(Clone, Copy)]
pub(crate) enum Keyword {
    Add,
    Prepend,
    AddReference,
    Drain,
    Remove,
    AddBuffer,
    RemoveBuffer,
    Pullup,
    PullupAll,
    Search,
    SearchEol,
    Readln,
    Peek,
    Len,
    Freeze,
    Unfreeze,
    AddCb,
    RemoveCb,
    EnableCb,
    DisableCb,
    Defer,
    Reports,
}

/// The kind of a line, by its first word.
pub(crate) fn read_keyword(word: &[u8]) -> Option<Keyword>
    ensures { result ≡ keyword_of word.now }
{
    read_change(word)
        .or(read_look(word))
        .or(read_callback(word))
}

fn read_change(word: &[u8]) -> Option<Keyword>
    ensures { result ≡ change_keyword word.now }
{
    if is_word(word, "add") {
        Some(Keyword::Add)
    } else if is_word(word, "prepend") {
        Some(Keyword::Prepend)
    } else if is_word(word, "ref") {
        Some(Keyword::AddReference)
    } else if is_word(word, "drain") {
        Some(Keyword::Drain)
    } else if is_word(word, "remove") {
        Some(Keyword::Remove)
    } else if is_word(word, "addbuf") {
        Some(Keyword::AddBuffer)
    } else if is_word(word, "rembuf") {
        Some(Keyword::RemoveBuffer)
    } else {
        None
    }
}

fn read_look(word: &[u8]) -> Option<Keyword>
    ensures { result ≡ look_keyword word.now }
{
    if is_word(word, "pullup") {
        Some(Keyword::Pullup)
    } else if is_word(word, "pullall") {
        Some(Keyword::PullupAll)
    } else if is_word(word, "search") {
        Some(Keyword::Search)
    } else if is_word(word, "eol") {
        Some(Keyword::SearchEol)
    } else if is_word(word, "readln") {
        Some(Keyword::Readln)
    } else if is_word(word, "peek") {
        Some(Keyword::Peek)
    } else if is_word(word, "len") {
        Some(Keyword::Len)
    } else {
        None
    }
}

fn read_callback(word: &[u8]) -> Option<Keyword>
    ensures { result ≡ callback_keyword word.now }
{
    if is_word(word, "freeze") {
        Some(Keyword::Freeze)
    } else if is_word(word, "unfreeze") {
        Some(Keyword::Unfreeze)
    } else if is_word(word, "cb") {
        Some(Keyword::AddCb)
    } else if is_word(word, "rmcb") {
        Some(Keyword::RemoveCb)
    } else if is_word(word, "cbon") {
        Some(Keyword::EnableCb)
    } else if is_word(word, "cboff") {
        Some(Keyword::DisableCb)
    } else if is_word(word, "defer") {
        Some(Keyword::Defer)
    } else if is_word(word, "reports") {
        Some(Keyword::Reports)
    } else {
        None
    }
}
