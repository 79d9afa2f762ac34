// That what is written is read back.
ghost use Rattle.rtp_codec.specs.Packets.{IsReadBack};

/// A law, with nothing to run: a packet of payload type 3 and at most 10 whole signed frames, as `write_rtp`
/// writes it, is no refused datagram, and is read as the same head and payload.
pub fn read_back()
    ensures { IsReadBack }
{}
