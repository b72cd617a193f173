//! Points at which a test may hold a worker.

/// A point at which a worker may be held. Each worker passes it before it cuts a piece, including the last piece of the file.
pub trait Gate {
    /// Passes worker `worker`, or holds it. It is about to cut piece `number` of file `file`.
    fn pass(&self, worker: u8, file: u32, number: u64);
}

/// A gate that holds no worker.
#[derive(Drop)]
pub struct OpenGate;

impl Gate for OpenGate {
    fn pass(&self, _worker: u8, _file: u32, _number: u64) {}
}
