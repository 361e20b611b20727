//! What an export answers.
ghost use Rattle.std.specs.Prelude.{◌≡◌};
ghost use Rattle.iox2sd_common.specs.Status.{code, status_text, ReadsStatus};

/// What an export answers; C sees its number.
#[derive(Clone, Copy)]
pub enum Status {
    /// It was done.
    Done = 0,
    /// It was done, and the service is locked for good.
    DoneLocked = 1,
    /// The buffer is too short.
    BufferTooShort = 2,
    /// Memory was refused.
    NoMemory = 3,
    /// The object holds no service.
    NoService = 4,
    /// The object holds a service already.
    HasService = 5,
    /// The number is not that of a messaging pattern.
    UnknownPattern = 6,
    /// The number is not that of a role, or of no port's where a port is meant.
    UnknownRole = 7,
    /// The id is that of no node: its process and its counter are 0.
    NoNode = 8,
    /// The service is locked for good.
    IsLocked = 9,
    /// No slot or no ticket is left.
    OutOfSpace = 10,
    /// No entry has the handle.
    ForeignHandle = 11,
    /// Some port has the node, and the handle is the node's only one.
    PortsStillAttached = 12,
    /// The node of the port is not registered.
    NodeNotRegistered = 13,
    /// The pattern has no ports of the role.
    RoleNotInPattern = 14,
    /// The number is not that of a kind of data segment.
    UnknownSegment = 15,
    /// A key of a pair is not valid.
    BadKey = 16,
    /// A value of a pair is not valid.
    BadValue = 17,
    /// There are more than sixteen pairs.
    TooMany = 18,
    /// NULL where a struct is expected.
    Null = 20,
    /// The number is not that of a status.
    UnknownStatus = 21,
    /// The text is empty where that is forbidden.
    Empty = 40,
    /// The text is longer than the greatest length allows, or would be.
    TooLong = 41,
    /// A byte may not stand in the text.
    IllegalByte = 42,
    /// The name, or what follows the last `/`, is `.`, `..` or empty.
    NoFileName = 43,
    /// The name begins with the prefix of the system's own names.
    ReservedPrefix = 44,
    /// The bytes are not UTF-8.
    NotUtf8 = 45,
    /// The text is not the name of a service.
    BadServiceName = 46,
    /// The text is not a path.
    BadPath = 47,
    /// The text may not be joined to a path.
    BadEntry = 48,
    /// The hasher's text cannot be the name of a file.
    IllegalHash = 49,
    /// A key of a required pair is not valid.
    BadRequiredKey = 50,
    /// A value of a required pair is not valid.
    BadRequiredValue = 51,
    /// A required key, or one that is searched for, is not valid.
    BadAskedKey = 52,
    /// More than sixteen pairs and keys are required.
    TooManyRequired = 53,
    /// A required pair is not in the set.
    MissingPair = 54,
    /// No pair of the set has a required key.
    MissingKey = 55,
    /// The key has no value of this index.
    NoSuchValue = 56,
    /// An alignment is not a power of two.
    BadAlignment = 57,
    /// The answer would pass its range.
    TooLarge = 58,
    /// The number is not that of a variant.
    UnknownVariant = 59,
    /// The types of a part have other names.
    OtherName = 60,
    /// The types of a part are of other variants.
    OtherVariant = 61,
    /// The types of a part have other sizes.
    OtherSize = 62,
    /// The types of the headers have other alignments.
    OtherAlignment = 63,
    /// The opener's type has a greater alignment than the service's.
    GreaterAlignment = 64,
    /// The number is not that of a text of the configuration.
    UnknownText = 65,
    /// A line of a script is not a command.
    BadLine = 66,
    /// The number is not that of a strategy.
    UnknownStrategy = 67,
    /// The nanoseconds beside the seconds are 1,000,000,000 or more.
    BadDuration = 68,
    /// A setting of a service is not what an opener requires.
    Unmet = 69,
    /// A service has another messaging pattern than its opener requires. No export answers it: the
    /// calls in C that compare services do.
    OtherPattern = 70,
    /// The text is no TOML.
    NotToml = 80,
    /// The value of a key is of another type than the one that is wanted.
    WrongType = 81,
    /// The value of a key is below 0.
    BelowZero = 82,
    /// The value of a key is no table of the integers `secs` and `nanos`.
    NoDuration = 83,
    /// A number, or the seconds of a duration, is above the greatest integer of TOML.
    NoTomlInteger = 84,
    /// A file cannot be read. No export answers it: wrappers that read files do.
    NoFile = 85,
    /// Tables and arrays are nested too deeply.
    TooDeep = 86,
    /// No order of the calls explains a reply of a log.
    NoOrder = 90,
    /// A line of a log is not that of a service, where one is expected.
    NoServiceLine = 91,
    /// A line of a log is not that of a service, a call or an event, where one is expected.
    NoCallLine = 92,
    /// No reply stands in a line of a log, where one is expected, or the log ends there.
    NoReplyLine = 93,
    /// The orders of the calls lead to more configurations than a check keeps.
    TooManyConfigurations = 94,
    /// More calls of a service are open than a check follows.
    TooManyOpenCalls = 95,
    /// A caller of a log begins a call while it has one open.
    CallerIsBusy = 96,
    /// A call ends in a log whose caller has none open.
    NoOpenCall = 97,
    /// A line of a log is that of a caller that has died.
    CallerIsDead = 98,
    /// A caller of a log dies that has begun no call.
    UnknownCaller = 99,
    /// The last line of a log has no newline.
    NoNewline = 100,
    /// A carriage return stands before the newline of a line of a log.
    CarriageReturn = 101,
    /// A line of a log gives a state with which its service cannot begin, or a call on it is open.
    NoStateLine = 102,
}

/// Passes each status, with its number and what it says, to a macro that matches the value.
macro_rules! match_each {
    ($arms:ident, $value:expr) => {
        $arms! {
            $value;
            0 Done "done",
            1 DoneLocked "done, and the service is locked for good",
            2 BufferTooShort "the buffer is too short",
            3 NoMemory "no memory",
            4 NoService "the object holds no service",
            5 HasService "the object holds a service already",
            6 UnknownPattern "unknown messaging pattern",
            7 UnknownRole "unknown role",
            8 NoNode "not the id of a node",
            9 IsLocked "the service is locked for good",
            10 OutOfSpace "no slot or no ticket is left",
            11 ForeignHandle "no entry has the handle",
            12 PortsStillAttached "ports are still attached",
            13 NodeNotRegistered "the node is not registered",
            14 RoleNotInPattern "the pattern has no ports of the role",
            15 UnknownSegment "unknown kind of data segment",
            16 BadKey "not a key of a pair",
            17 BadValue "not a value of a pair",
            18 TooMany "more than sixteen pairs",
            20 Null "NULL",
            21 UnknownStatus "unknown status",
            40 Empty "the text is empty",
            41 TooLong "the text is too long",
            42 IllegalByte "a byte may not stand in the text",
            43 NoFileName "not the name of a file",
            44 ReservedPrefix "the name begins with a reserved prefix",
            45 NotUtf8 "not UTF-8",
            46 BadServiceName "not the name of a service",
            47 BadPath "not a path",
            48 BadEntry "the text may not be joined to a path",
            49 IllegalHash "the hash text cannot be the name of a file",
            50 BadRequiredKey "not a key of a required pair",
            51 BadRequiredValue "not a value of a required pair",
            52 BadAskedKey "not a required key, nor one that may be searched for",
            53 TooManyRequired "more than sixteen pairs and keys are required",
            54 MissingPair "a required pair is not in the set",
            55 MissingKey "no pair of the set has a required key",
            56 NoSuchValue "the key has no value of this index",
            57 BadAlignment "an alignment is not a power of two",
            58 TooLarge "the answer would pass its range",
            59 UnknownVariant "unknown variant",
            60 OtherName "the types of a part have other names",
            61 OtherVariant "the types of a part are of other variants",
            62 OtherSize "the types of a part have other sizes",
            63 OtherAlignment "the types of the headers have other alignments",
            64 GreaterAlignment "the opener's type has a greater alignment than the service's",
            65 UnknownText "unknown text of the configuration",
            66 BadLine "a line of the script is not valid",
            67 UnknownStrategy "unknown strategy",
            68 BadDuration "the nanoseconds of a duration are a second or more",
            69 Unmet "a setting is not what the opener requires",
            70 OtherPattern "the service has another messaging pattern",
            80 NotToml "not TOML",
            81 WrongType "a value of another type is wanted",
            82 BelowZero "the number is below 0",
            83 NoDuration "not a duration: the integers secs and nanos",
            84 NoTomlInteger "TOML has no integer above 2^63 - 1",
            85 NoFile "the file cannot be read",
            86 TooDeep "tables and arrays are nested too deeply",
            90 NoOrder "no order of the calls explains the reply",
            91 NoServiceLine "the line of a service is expected",
            92 NoCallLine "the line of a service, a call or an event is expected",
            93 NoReplyLine "a reply is expected",
            94 TooManyConfigurations "orders of the calls lead to more than 4,096 configurations",
            95 TooManyOpenCalls "more than 64 calls are open",
            96 CallerIsBusy "a caller without an open call is expected",
            97 NoOpenCall "a caller with an open call is expected",
            98 CallerIsDead "a caller that has not died is expected",
            99 UnknownCaller "a caller that has begun a call is expected",
            100 NoNewline "a newline is expected at the end of the line",
            101 CarriageReturn "no carriage return is expected before the newline",
            102 NoStateLine "a state of the service is expected",
        }
    };
}

/// What the status says.
macro_rules! text_arms {
    ($status:expr; $($number:literal $name:ident $text:literal,)*) => {
        match $status {
            $(Status::$name => $text,)*
        }
    };
}

/// The status of the number.
macro_rules! status_arms {
    ($number_of:expr; $($number:literal $name:ident $text:literal,)*) => {
        match $number_of {
            $($number => Some(Status::$name),)*
            _ => None,
        }
    };
}

impl Status {
    /// The number that C sees.
    pub fn code(self) -> u32
        ensures { result ≡ code self }
    {
        self as u32
    }

    /// What it says.
    pub fn text(self) -> &'static str
        ensures { result.now ≡ status_text self }
    {
        match_each!(text_arms, self)
    }
}

/// The status of a number.
pub fn status_of(number: u32) -> Option<Status>
    ensures { ReadsStatus number result }
{
    match_each!(status_arms, number)
}
