//! Laws over the definitions of classes and chunks, each the contract of a function that does nothing.
ghost use Rattle.kz_class.specs.ClassLaws.{ClassIsLeast, NoneIsAboveTheLast, PagesAreLeast, ClassesFit};

/// The class of a size is the least that holds it, and its chunk has the least pages.
pub fn classes_are_least()
    ensures class { ClassIsLeast }
    ensures none { NoneIsAboveTheLast }
    ensures pages { PagesAreLeast }
    ensures fit { ClassesFit }
{}
