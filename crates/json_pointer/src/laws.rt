//! Laws: printing a pointer and reading it undo each other. Each law is the contract of a function that does nothing.
#![tactic(auto, using(crate::proofs::Steps::laws))]

ghost use Rattle.json_pointer.specs.Pointer.{PointerIsRead, ReadIsPrinted};

/// The pointer of a path is read as that path.
pub fn pointer_is_read()
    ensures { PointerIsRead }
{}

/// If a text is read as a path, the text is the pointer of that path.
pub fn read_is_printed()
    ensures { ReadIsPrinted }
{}
