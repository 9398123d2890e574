// What a program prints: its bytes, then zeros, and the count of its bytes.
ghost use Rattle.std.specs.Prelude.{◌≡◌, ◌≤◌, length, take};

// A page of at most N bytes.
#[derive(Drop)]
pub struct Printed<const N: usize> {
    pub bytes: [u8; N],
    pub count: usize,
}

impl<const N: usize> Printed<N> {
    // The bytes of the page alone.
    pub fn text(&self) -> &[u8]
        requires { self.now.count ≤ length self.now.bytes }
        ensures { result.now ≡ take self.now.count self.now.bytes }
    {
        &self.bytes[..self.count]
    }
}
