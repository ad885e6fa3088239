//! What follows from the recordings of a unary register. The law is the contract of a function that does nothing: a body calls it to
//! have the statement in its proof.
ghost use Rattle.unary_recordings.specs.Recorded.{RecordedUnaryIsRegular};

/// Whatever the values that are written to a count, and whatever the reads of its safe bits return while these are being written: recorded
/// as writes and reads of one register, the unary writes and the scans of a lawful history are regular, by the definition that
/// `register_calls` uses for any register. (They need not be atomic.)
pub fn recorded_unary_is_regular()
    ensures { RecordedUnaryIsRegular }
{}
