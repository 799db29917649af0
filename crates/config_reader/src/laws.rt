//! Laws of the definition, each as the contract of a function without a body.
ghost use Rattle.config_reader.specs.Laws.{ReadingsAreStated};

/// Of a file over a model each name in a formula is the number of a feature, and at most 4,096 musts are read.
pub fn readings_are_stated()
    ensures { ReadingsAreStated }
{}
