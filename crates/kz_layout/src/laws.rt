//! Laws of the layouts, each the contract of a function that does nothing.
ghost use Rattle.kz_layout.specs.FieldLaws.{FieldsArePlaced};
ghost use Rattle.kz_layout.specs.PointerLaws.{DataHoldsNoPointer};

/// In a layout each field, and each of its items, is at a multiple of its alignment; the fields of a struct stand
/// one after the other and those of a union at its start; all end within the size, which is a multiple of the
/// alignment.
pub fn fields_are_placed()
    ensures { FieldsArePlaced }
{}

/// A type is of data alone, by its letters, exactly where it has no pointer: not in a field, a union or another type.
pub fn data_holds_no_pointer()
    ensures { DataHoldsNoPointer }
{}
