// The cuts that the sections share.
use saying::given;
use strlib::StrPtr;

pub(crate) fn relative(store: &[u8], string: StrPtr, offset: usize) -> StrPtr {
    given(cutting::relative(store, string, offset))
}

pub(crate) fn between(store: &[u8], string: StrPtr, pos1: usize, pos2: usize) -> StrPtr {
    given(cutting::between(store, string, pos1, pos2))
}
