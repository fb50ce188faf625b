// The laws of lines, words and numbers, each on a function whose contract it is.
ghost use Rattle.script_text.specs.Laws.{LinesAreParted, PhraseHasItsWords, NumbersAreDecimal, RefusedAtFirstBad};
ghost use Rattle.script_text.specs.TraceLaws.{WrittenIsRead, TraceRefusedAtFirstBad};

/// A text of lines, each with its LF, has these lines; the last may lack its LF.
pub fn lines_are_parted()
    ensures { LinesAreParted }
{}

/// Words with a single space between two are the words of that line.
pub fn phrase_has_its_words()
    ensures { PhraseHasItsWords }
{}

/// A word spells a number exactly where it is how that number is written.
pub fn numbers_are_decimal()
    ensures { NumbersAreDecimal }
{}

/// A text is refused at the first line that can't stand behind those before it.
pub fn refused_at_first_bad()
    ensures { RefusedAtFirstBad }
{}

/// Reading the text of a trace, of which each entry can be spelled, gives that trace.
pub fn written_is_read()
    ensures { WrittenIsRead }
{}

/// A text of a trace is refused at its first line that is none.
pub fn trace_refused_at_first_bad()
    ensures { TraceRefusedAtFirstBad }
{}
