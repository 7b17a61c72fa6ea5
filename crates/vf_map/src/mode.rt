/// How the 128 queues are divided into pools: bits 1:0 of GCR_EXT.
#[derive(Clone, Copy, PartialEq, Eq, Debug)]
pub enum Mode {
    /// No pools: no virtual function has queues.
    Off,
    /// 16 pools of eight queues.
    Pools16,
    /// 32 pools of four queues.
    Pools32,
    /// 64 pools of two queues.
    Pools64,
}
