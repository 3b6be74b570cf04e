// A desk that there is.
ghost use Rattle.std.specs.Prelude.{◌<◌};

#[derive(Clone, Copy)]
pub struct Desk {
    pub at: usize,
    ghost below: { at < 8 },
}
