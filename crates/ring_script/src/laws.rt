//! What a script is, in terms of its format. Each law is the contract of a function that does nothing: a body calls it to have
//! the statement in its proof. For code that reads scripts, or refuses them.
ghost use Rattle.ring_script.specs.Laws.{DecimalIsCount, FaultyIsNoScript, OneScriptFault, OneScriptReading, OneSpelling, ScriptOrFault};

/// Bytes are a script or have a fault.
pub fn script_or_fault()
    ensures { ScriptOrFault }
{}

/// Bytes with a fault are not a script.
pub fn faulty_is_no_script()
    ensures { FaultyIsNoScript }
{}

/// Bytes have at most one fault.
pub fn one_fault()
    ensures { OneScriptFault }
{}

/// Bytes are a script of at most one content.
pub fn one_reading()
    ensures { OneScriptReading }
{}

/// The text of a schedule represents one list of letters.
pub fn one_spelling()
    ensures { OneSpelling }
{}

/// What `{}` writes for a number from 1 on is a count of that many letters.
pub fn decimal_is_count()
    ensures { DecimalIsCount }
{}
