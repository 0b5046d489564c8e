//! In which order the words of a transfer are taken.

ghost use Rattle.ds_card.specs.TransferLaws.{BeginsInOrder, TransfersInOrder};

/// Does nothing; its contract states that from a transfer's start to at most its end, whoever writes, reads and lets events come, the
/// words that its starter takes are the first of the transfer's words, in order and each once, and all of them where it has ended; and
/// that whatever follows, the words taken begin with these.
pub fn transfer_laws()
    ensures order { TransfersInOrder }
    ensures begins { BeginsInOrder }
{}
