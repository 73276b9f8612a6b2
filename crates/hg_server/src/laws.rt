//! What holds of the protocol itself.

ghost use Rattle.hg_server.specs.Readings.{HasOneReading, IsAwaited, IsTaken};

/// What a client writes as a request is read as that request, and no part of it is refused.
pub fn what_is_written_is_read()
    ensures taken { IsTaken }
    ensures awaited { IsAwaited }
{}

/// A text has one reading: which requests stand in it, and why it ends before the text does.
pub fn one_reading()
    ensures { HasOneReading }
{}
