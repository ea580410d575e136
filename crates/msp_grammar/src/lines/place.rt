// What is left of a text.
ghost use Rattle.std.specs.Prelude.{◌+◌, ◌<◌, length};
ghost use Rattle.msp_class.specs.declared.list.TheConstants.{PLACES};

/// What is left of a text: the number of the next line, from 1, and the bytes.
#[derive(Clone, Copy)]
pub struct Lines<'a> {
    pub at: u32,
    pub rest: &'a [u8],
    ghost small: { at + length rest.now < PLACES },
}
