//! Laws of command lines.

ghost use Rattle.std.specs.Prelude.{◌≡◌, List};
ghost use Rattle.dns_spec.specs.Names.{Octets};
ghost use Rattle.dns_spec.specs.Report.{Options};
ghost use Rattle.dns_spec.specs.CommandWords.{ZoneWords, AskToCheck, ServiceAsked, AskToServe, SocketAsked, AskAtSocket};

/// The arguments of the checker can be read in at most one way: as options, ORIGIN and FILE.
pub fn words_ask_for_one_check()
    ensures { (words : List Octets) (a b : Options) (y z : ZoneWords)
        → AskToCheck words a y → AskToCheck words b z → (a ≡ b) × (y ≡ z) }
{}

/// The arguments of the server can be read in at most one way: as a service, ORIGIN and FILE.
pub fn words_ask_for_one_service()
    ensures { (words : List Octets) (s t : ServiceAsked) (y z : ZoneWords)
        → AskToServe words s y → AskToServe words t z → (s ≡ t) × (y ≡ z) }
{}

/// The arguments of `zonesocket` can be read in at most one way: as a transport, a number of turns,
/// ORIGIN and FILE.
pub fn words_ask_for_one_socket()
    ensures { (words : List Octets) (a b : SocketAsked) (y z : ZoneWords)
        → AskAtSocket words a y → AskAtSocket words b z → (a ≡ b) × (y ≡ z) }
{}
