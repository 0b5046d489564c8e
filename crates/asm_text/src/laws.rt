//! Laws of statements, as a function that is called for nothing but what it ensures.

ghost use Rattle.asm_text.specs.StatementLaws.{StatementLaws};

/// At an address each word and each half has a statement of its own, which no other has; none is a byte's line, and each is one line.
pub fn statement_laws()
    ensures { StatementLaws }
{}
