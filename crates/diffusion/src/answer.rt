use network::fault::NetworkFault;

/// What a turn answers.
#[derive(Clone, Copy, PartialEq, Eq, Debug)]
pub enum Answer<'a> {
    /// the call was done
    Done,
    /// what a READ gave, as many bytes as it answered
    Bytes(&'a [u8]),
    /// the call was refused, and nothing was done
    Refused(NetworkFault),
}
