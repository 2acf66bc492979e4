ghost use Rattle.std.specs.Prelude.{◌≡◌};

/// Why a call has no success. Numbers below 100 are CNI's, the others are this plugin's.
#[derive(Clone, Copy)]
pub enum Code {
    /// The version of the configuration is not supported, or has not the command.
    IncompatibleVersion,
    /// A variable of the environment is bad.
    InvalidEnvironment,
    /// Input or output failed.
    InputOutput,
    /// Standard input is no configuration.
    Undecodable,
    /// A member of the configuration is bad.
    InvalidConfiguration,
    /// Others were quicker too often.
    TryAgain,
    /// An ADD found no address that it could give in a wanted family. The details name the family.
    NoAddress,
    /// There was no memory for the call.
    WantOfMemory,
    /// The handle has not this address.
    NotRecorded,
    /// A record could not be created: there are 262,144 rows, or 16,384 blocks.
    DatastoreFull,
    /// An ADD found the handle's count of the block at its limit, 2^32 - 1.
    HandleCountFull,
    /// There are no more revisions: the datastore's counter has reached 2^62.
    RevisionsSpent,
    /// The rows break one of the ten rules of opening. The details are its number and a key.
    BadDatastore,
    /// An ADD names a pool that matches no enabled pool of its family. The details are that name.
    NoSuchPool,
    /// No usable pool has the address.
    NotUsable,
    /// A handle already holds the address. It may be the call's own. The details are its id.
    AddressTaken,
    /// The address lies in a block that is not the node's.
    NotAffine,
    /// The daemon did not reply.
    NoReply,
    /// An ADD could not be served.
    NotAvailable,
}

impl Code {
    ghost use Rattle.cni_types.specs.Code.{code_number, message};

    /// The number in the text of an error: 1 to 11 are CNI's, 100 to 112 this plugin's.
    pub fn number(self) -> u32
        ensures { result ≡ code_number self }
    {
        match self {
            Code::IncompatibleVersion => 1,
            Code::InvalidEnvironment => 4,
            Code::InputOutput => 5,
            Code::Undecodable => 6,
            Code::InvalidConfiguration => 7,
            Code::TryAgain => 11,
            Code::NoAddress => 100,
            Code::WantOfMemory => 101,
            Code::NotRecorded => 102,
            Code::DatastoreFull => 103,
            Code::HandleCountFull => 104,
            Code::RevisionsSpent => 105,
            Code::BadDatastore => 106,
            Code::NoSuchPool => 107,
            Code::NotUsable => 108,
            Code::AddressTaken => 109,
            Code::NotAffine => 110,
            Code::NoReply => 111,
            Code::NotAvailable => 112,
        }
    }

    /// The message that goes with the number.
    pub fn message(self) -> &'static str
        ensures { result.now ≡ message self }
    {
        match self {
            Code::IncompatibleVersion => "incompatible CNI version",
            Code::InvalidEnvironment => "invalid environment variable",
            Code::InputOutput => "input or output fault",
            Code::Undecodable => "cannot decode network configuration",
            Code::InvalidConfiguration => "invalid network configuration",
            Code::TryAgain => "try again later",
            Code::NoAddress => "no address available",
            Code::WantOfMemory => "want of memory",
            Code::NotRecorded => "address not recorded",
            Code::DatastoreFull => "datastore full",
            Code::HandleCountFull => "handle count full",
            Code::RevisionsSpent => "revisions spent",
            Code::BadDatastore => "bad datastore",
            Code::NoSuchPool => "no such pool",
            Code::NotUsable => "address not in a usable pool",
            Code::AddressTaken => "address taken",
            Code::NotAffine => "block not affine to this node",
            Code::NoReply => "no reply from the daemon",
            Code::NotAvailable => "plugin not available",
        }
    }
}
