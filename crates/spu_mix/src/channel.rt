// A channel.

/// Whether a channel plays.
#[derive(Clone, Copy)]
pub(crate) enum ChannelState {
    Stopped,
    Paused,
    Playing,
}

/// A channel: its state, the number of the sound that is assigned to it, whether it plays its sound's
/// loop, and its position in the sound, in samples.
#[derive(Clone, Copy)]
pub(crate) struct Channel {
    pub(crate) state: ChannelState,
    pub(crate) sound: Option<u32>,
    pub(crate) looping: bool,
    pub(crate) position: u32,
}
