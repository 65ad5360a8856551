//! Where connections come from.
ghost use Rattle.std.specs.Prelude.{◌≡◌, IfOk, None, Ok, OnOk, Option};
ghost use Rattle.office_wire.specs.Sources.{Accepts, Closes, Traffic};

use office_base::Io;
use std::io::{Read, Write};

/// Where connections come from, one after another, each with a side to read and one to write. Some
/// sources report all bytes beforehand, as [`crate::RequestList`] does; a listener reports none.
pub trait ConnectionSource {
    /// The side of a connection from which its request is read.
    type Reader: Read + Drop;

    /// The side to which its answer is written.
    type Writer: Write + Drop;

    /// What is known of its connections, those that are to come and those that came.
    ghost traffic: { Self → Option Traffic } = { λ _. None };

    /// A connection came that is not closed yet.
    ghost is_open: { Self → Type 0 } = { λ _. Unit {0} };

    /// Waits for the next connection. `Io` comes if none came. A source that reports all bytes
    /// returns it only if no connection is to come.
    fn accept(&mut self) -> Result<(Self::Reader, Self::Writer), Io>
        ensures reports { Accepts Self.Reader.remaining Self.Writer.contents result
            (traffic self.old) (traffic self.new) }
        ensures open { OnOk result (is_open self.new) };

    /// Closes the connection that came, by how its request was served. `Io` comes where that
    /// failed, or where what was written did not go out.
    fn close(
        &mut self,
        reader: Self::Reader,
        writer: Self::Writer,
        served: Result<u16, Io>,
    ) -> Result<u16, Io>
        requires { is_open self.old }
        ensures reports { Closes (Self.Writer.contents writer) served result (traffic self.old)
            (traffic self.new) }
        ensures status { IfOk result (λ code. served ≡ Ok code) };
}
