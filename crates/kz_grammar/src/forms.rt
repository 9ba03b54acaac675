//! Laws over the forms of lines, each the contract of a function that does nothing.
ghost use Rattle.kz_grammar.specs.FormLaws.{OneForm, BadLines, BadNumbers, OutOfRanges, FineLines, BadLineForms, BadNumberForms, OutOfRangeForms, FirstBadLine, FirstBadNumber, FirstOutOfRange, FineLinesSay, FormsAreTexts};

/// A line has one form of its place at most, and one run in each place of a number.
pub fn a_line_has_one_form()
    ensures { OneForm }
{}

/// A line is judged by the forms of its place, and by the runs in the places of its numbers.
pub fn lines_are_judged_by_forms()
    ensures bad { BadLines }
    ensures numbers { BadNumbers }
    ensures ranges { OutOfRanges }
    ensures fine { FineLines }
    ensures says { FineLinesSay }
{}

/// A text's form has one of these faults just where the line of that number has it at its place.
pub fn texts_are_judged_by_lines()
    ensures bad { BadLineForms }
    ensures numbers { BadNumberForms }
    ensures ranges { OutOfRangeForms }
{}

/// Such a fault is the first of the bytes just there, since no later stage has one of these.
pub fn first_faults_are_of_lines()
    ensures bad { FirstBadLine }
    ensures numbers { FirstBadNumber }
    ensures ranges { FirstOutOfRange }
{}

/// The forms of a line's tokens are forms of its text.
pub fn forms_are_texts()
    ensures { FormsAreTexts }
{}
