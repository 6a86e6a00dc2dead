//! Laws of script lines. Each is a function that does nothing.

ghost use Rattle.script_words.specs.Laws.{OneCommand, OneColumn, SomeColumn};

/// A line says one command at most.
pub fn one_command()
    ensures { OneCommand }
{}

/// A line goes wrong in one column at most.
pub fn one_column()
    ensures { OneColumn }
{}

/// A line that is neither passed over nor says a command goes wrong in some column.
pub fn some_column()
    ensures { SomeColumn }
{}
