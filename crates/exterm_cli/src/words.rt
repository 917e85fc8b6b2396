// The command line.
ghost use Rattle.std.specs.Prelude.{◌≡◌, ◌<◌, ◌≤◌, ◌+◌, ◌-◌, ◌^◌, ◌∷◌, length, map, string_bytes, false, if◌then◌else◌, IfOk};
ghost use Rattle.exterm_cli.specs.Counted.{GivesGuest, LastsGuest, LiesIn};
ghost use Rattle.exterm_cli.specs.Number.{digits_from, number_of};
ghost use Rattle.exterm_cli.specs.Words.{verb_of, flag_of, is_guest, is_numbered, most_names, writes_out, is_seeded, allows, has, begun, refuse, with_flag, flagged, in_range, valued, with_string, with_name, named, before_last, after_last, word_read, words_read, guest_words, file_words, command_of, finished, words_of, numbered, IsFileFlag, IsNumberFlag};

use layout_run::MOST_STEPS;

/// The steps of a run that isn't given any.
pub const USUAL_STEPS: u64 = 1_000_000_000;

/// How a command line is refused.
#[derive(Clone, Copy, Debug, PartialEq, Eq, Drop)]
pub enum Kind {
    /// No command, or none of that name.
    Command,
    /// A word that begins with `-` and is no option here.
    Unknown,
    /// An option a second time.
    Repeat,
    /// An option's value is absent, empty, or no number in its range.
    Value,
    /// An empty name, or no number in its range.
    Name,
    /// A word behind the last name.
    Excess,
    /// More words for the guest than it may be given.
    Guest,
    /// A required name or option is absent.
    Missing,
}

/// The first refusal, and the number of its word from 1.
#[derive(Clone, Copy, Debug, PartialEq, Eq, Drop)]
pub struct Refusal {
    pub place: usize,
    pub kind: Kind,
}

#[derive(Clone, Copy, Debug, PartialEq, Eq, Drop)]
pub enum Verb {
    Run,
    Repair,
    Replicate,
    Merge,
    Isolate,
    Show,
    Make,
    Trial,
    Judge,
}

#[derive(Clone, Copy, Debug, PartialEq, Eq, Drop)]
pub enum Flag {
    Seed,
    Steps,
    Patches,
    Zero,
    Image,
    Images,
    Replicas,
    Quantum,
    Out,
}

/// The options so far. Files are named by the index of their word.
#[derive(Clone, Copy, Debug, PartialEq, Eq, Drop)]
pub struct Options {
    pub seed: Option<u64>,
    pub steps: Option<u64>,
    pub patches: Option<usize>,
    pub zero: bool,
    pub image: Option<usize>,
    pub images: Option<u64>,
    pub replicas: Option<u64>,
    pub quantum: Option<u64>,
    pub out: Option<usize>,
}

/// What the words so far say.
#[derive(Clone, Copy, Debug, PartialEq, Eq, Drop)]
pub struct Reading {
    pub verb: Verb,
    pub options: Options,
    /// The option whose value is next.
    pub expects: Option<Flag>,
    /// The index of the first name, and how many names there are.
    pub first: usize,
    pub names: usize,
    /// The number that is the name of `make` and `trial`.
    pub number: u32,
    /// The index of the first guest word, behind `--`.
    pub guest: Option<usize>,
    /// The strings of the argument list, and their bytes with a zero byte behind each.
    pub strings: usize,
    pub bytes: usize,
}

/// The words about a guest: the index of its file and of its first own word (the number of words where there
/// is none), the seed and the budget of steps, the index of the patch file, and whether memory is zeroed.
#[derive(Clone, Copy, Debug, PartialEq, Eq, Drop)]
pub struct GuestWords {
    pub elf: usize,
    pub guest: usize,
    pub seed: u64,
    pub steps: u64,
    pub patches: Option<usize>,
    pub zero: bool,
}

/// The index of the first of some files, how many there are, and the index of the file to write.
#[derive(Clone, Copy, Debug, PartialEq, Eq, Drop)]
pub struct FileWords {
    pub first: usize,
    pub count: usize,
    pub out: Option<usize>,
}

/// What a command line asks for. Files are named by the index of their word.
#[derive(Clone, Copy, Debug, PartialEq, Eq, Drop)]
pub enum Command {
    Run {
        guest: GuestWords,
        image: Option<usize>,
    },
    Repair {
        guest: GuestWords,
        images: u64,
        out: usize,
    },
    Replicate {
        guest: GuestWords,
        replicas: u64,
        quantum: u64,
        out: Option<usize>,
    },
    Merge(FileWords),
    Isolate(FileWords),
    Show {
        file: usize,
    },
    Make {
        n: u32,
        out: Option<usize>,
    },
    Trial {
        n: u32,
        seed: u64,
    },
    Judge {
        guest: GuestWords,
    },
}

// A number of decimal digits below 2^64, without a leading zero.
fn number_of(text: &str) -> Option<u64>
    ensures { result ≡ number_of (2 ^ 64) text.now }
{
    let bytes = text.as_bytes();
    match bytes {
        [] => None,
        [b'0', _, ..] => None,
        _ => digits_of(bytes),
    }
}

fn digits_of(bytes: &[u8]) -> Option<u64>
    ensures { result ≡ digits_from (2 ^ 64) 0 bytes.now }
{
    let mut value = 0u64;
    for digit in bytes {
        if *digit < b'0' || *digit > b'9' {
            return None;
        }
        value = value
            .checked_mul(10)?
            .checked_add(u64::from(*digit - b'0'))?;
    }
    Some(value)
}

fn verb_of(word: &str) -> Option<Verb>
    ensures { result ≡ verb_of word.now }
{
    if word == "run" {
        return Some(Verb::Run);
    }
    if word == "repair" {
        return Some(Verb::Repair);
    }
    if word == "replicate" {
        return Some(Verb::Replicate);
    }
    if word == "merge" {
        return Some(Verb::Merge);
    }
    if word == "isolate" {
        return Some(Verb::Isolate);
    }
    if word == "show" {
        return Some(Verb::Show);
    }
    if word == "make" {
        return Some(Verb::Make);
    }
    if word == "trial" {
        return Some(Verb::Trial);
    }
    if word == "judge" {
        return Some(Verb::Judge);
    }
    None
}

fn flag_of(word: &str) -> Option<Flag>
    ensures { result ≡ flag_of word.now }
{
    if word == "--seed" {
        return Some(Flag::Seed);
    }
    if word == "--steps" {
        return Some(Flag::Steps);
    }
    if word == "--patches" {
        return Some(Flag::Patches);
    }
    if word == "--zero" {
        return Some(Flag::Zero);
    }
    if word == "--image" {
        return Some(Flag::Image);
    }
    if word == "--images" {
        return Some(Flag::Images);
    }
    if word == "--replicas" {
        return Some(Flag::Replicas);
    }
    if word == "--quantum" {
        return Some(Flag::Quantum);
    }
    if word == "--out" {
        return Some(Flag::Out);
    }
    None
}

impl Verb {
    // It has an ELF file, and takes guest words behind it.
    fn is_guest(self) -> bool
        ensures { result ≡ is_guest self }
    {
        matches!(
            self,
            Verb::Run | Verb::Repair | Verb::Replicate | Verb::Judge
        )
    }

    // Its name is a number.
    fn is_numbered(self) -> bool
        ensures { result ≡ is_numbered self }
    {
        matches!(self, Verb::Make | Verb::Trial)
    }

    fn most_names(self) -> usize
        ensures { result ≡ most_names self }
    {
        match self {
            Verb::Merge => 64,
            Verb::Isolate => 16,
            _ => 1,
        }
    }

    fn writes_out(self) -> bool
        ensures { result ≡ writes_out self }
    {
        matches!(
            self,
            Verb::Repair | Verb::Replicate | Verb::Merge | Verb::Isolate | Verb::Make
        )
    }

    fn is_seeded(self) -> bool
        ensures { result ≡ is_seeded self }
    {
        matches!(
            self,
            Verb::Run | Verb::Repair | Verb::Replicate | Verb::Trial
        )
    }

    fn allows(self, flag: Flag) -> bool
        ensures { result ≡ allows self flag }
    {
        match flag {
            Flag::Seed => self.is_seeded(),
            Flag::Steps | Flag::Patches | Flag::Zero => self.is_guest(),
            Flag::Image => matches!(self, Verb::Run),
            Flag::Images => matches!(self, Verb::Repair),
            Flag::Replicas | Flag::Quantum => matches!(self, Verb::Replicate),
            Flag::Out => self.writes_out(),
        }
    }
}

impl Options {
    fn has(&self, flag: Flag) -> bool
        ensures { result ≡ has self.now flag }
    {
        match flag {
            Flag::Seed => self.seed.is_some(),
            Flag::Steps => self.steps.is_some(),
            Flag::Patches => self.patches.is_some(),
            Flag::Zero => self.zero,
            Flag::Image => self.image.is_some(),
            Flag::Images => self.images.is_some(),
            Flag::Replicas => self.replicas.is_some(),
            Flag::Quantum => self.quantum.is_some(),
            Flag::Out => self.out.is_some(),
        }
    }
}

fn begun(verb: Verb) -> Reading
    ensures { result ≡ begun verb }
{
    Reading {
        verb,
        options: Options {
            seed: None,
            steps: None,
            patches: None,
            zero: false,
            image: None,
            images: None,
            replicas: None,
            quantum: None,
            out: None,
        },
        expects: None,
        first: 0,
        names: 0,
        number: 0,
        guest: None,
        strings: 0,
        bytes: 0,
    }
}

fn refuse(place: usize, kind: Kind) -> Result<Reading, Refusal>
    ensures { result ≡ refuse place kind }
{
    Err(Refusal { place, kind })
}

// A number in a range.
fn in_range(low: u64, high: u64, word: &str) -> Option<u64>
    ensures { result ≡ in_range low high (number_of (2 ^ 64) word.now) }
{
    match number_of(word) {
        Some(n) if low <= n && n <= high => Some(n),
        _ => None,
    }
}

impl Reading {
    fn with_flag(self, flag: Flag) -> Reading
        ensures { result ≡ with_flag self flag }
    {
        let mut next = self;
        match flag {
            Flag::Zero => next.options.zero = true,
            _ => next.expects = Some(flag),
        }
        next
    }

    // A word that begins with `-`, before any name.
    fn flagged(self, place: usize, word: &str) -> Result<Reading, Refusal>
        ensures { result ≡ flagged self place (flag_of word.now) }
    {
        let Some(flag) = flag_of(word) else {
            return refuse(place, Kind::Unknown);
        };
        if !self.verb.allows(flag) {
            return refuse(place, Kind::Unknown);
        }
        if self.options.has(flag) {
            return refuse(place, Kind::Repeat);
        }
        Ok(self.with_flag(flag))
    }

    // The value of an option that is a file.
    fn with_file(self, place: usize, word: &str, flag: Flag) -> Result<Reading, Refusal>
        requires place { 0 < place }
        requires flag { IsFileFlag flag }
        ensures { result ≡ valued self place word.now flag }
    {
        if word.is_empty() {
            return refuse(place, Kind::Value);
        }
        let mut options = self.options;
        match flag {
            Flag::Patches => options.patches = Some(place - 1),
            Flag::Image => options.image = Some(place - 1),
            _ => options.out = Some(place - 1),
        }
        Ok(Reading {
            options,
            expects: None,
            ..self
        })
    }

    // The value of an option that is a number.
    fn with_number(self, place: usize, word: &str, flag: Flag) -> Result<Reading, Refusal>
        requires { IsNumberFlag flag }
        ensures { result ≡ valued self place word.now flag }
    {
        let range = match flag {
            Flag::Steps => in_range(1, MOST_STEPS, word),
            Flag::Images => in_range(2, 16, word),
            Flag::Replicas => in_range(3, 9, word),
            Flag::Quantum => in_range(1, 1_000_000, word),
            _ => number_of(word),
        };
        let Some(n) = range else {
            return refuse(place, Kind::Value);
        };
        let mut options = self.options;
        match flag {
            Flag::Steps => options.steps = Some(n),
            Flag::Images => options.images = Some(n),
            Flag::Replicas => options.replicas = Some(n),
            Flag::Quantum => options.quantum = Some(n),
            _ => options.seed = Some(n),
        }
        Ok(Reading {
            options,
            expects: None,
            ..self
        })
    }

    fn valued(self, place: usize, word: &str, flag: Flag) -> Result<Reading, Refusal>
        requires { 0 < place }
        ensures { result ≡ valued self place word.now flag }
    {
        match flag {
            Flag::Patches | Flag::Image | Flag::Out => self.with_file(place, word, flag),
            Flag::Zero => refuse(place, Kind::Value),
            _ => self.with_number(place, word, flag),
        }
    }

    // One more string of the argument list.
    fn with_string(self, place: usize, word: &str) -> Result<Reading, Refusal>
        ensures { result ≡ with_string self place word.now }
    {
        let bytes = self.bytes.saturating_add(word.len() + 1);
        if self.strings >= 1024 || bytes > 65536 {
            return refuse(place, Kind::Guest);
        }
        Ok(Reading {
            strings: self.strings + 1,
            bytes,
            ..self
        })
    }

    fn with_name(self, place: usize) -> Reading
        requires place { 0 < place }
        requires names { self.names < 64 }
        ensures { result ≡ with_name self place }
    {
        if self.names == 0 {
            return Reading {
                first: place - 1,
                names: 1,
                ..self
            };
        }
        Reading {
            names: self.names + 1,
            ..self
        }
    }

    fn numbered(self, place: usize, word: &str) -> Result<Reading, Refusal>
        requires place { 0 < place }
        requires names { self.names < 64 }
        ensures { result ≡ numbered self place (in_range 0 4294967295 (number_of (2 ^ 64) word.now)) }
    {
        let Some(n) = in_range(0, 4_294_967_295, word) else {
            return refuse(place, Kind::Name);
        };
        Ok(Reading {
            number: n as u32,
            ..self.with_name(place)
        })
    }

    fn named(self, place: usize, word: &str) -> Result<Reading, Refusal>
        requires place { 0 < place }
        requires names { self.names < 64 }
        ensures { result ≡ named self place word.now }
    {
        if word.is_empty() {
            return refuse(place, Kind::Name);
        }
        if self.verb.is_numbered() {
            return self.numbered(place, word);
        }
        let next = self.with_name(place);
        if self.verb.is_guest() {
            return next.with_string(place, word);
        }
        Ok(next)
    }

    fn before_last(self, place: usize, word: &str) -> Result<Reading, Refusal>
        requires place { 0 < place }
        requires names { self.names < 64 }
        ensures { result ≡ before_last self place word.now }
    {
        let bytes = word.as_bytes();
        if !bytes.is_empty() && bytes[0] == b'-' {
            if self.names > 0 {
                return refuse(place, Kind::Unknown);
            }
            return self.flagged(place, word);
        }
        self.named(place, word)
    }

    fn after_last(self, place: usize, word: &str) -> Result<Reading, Refusal>
        ensures { result ≡ after_last self place word.now }
    {
        if self.verb.is_guest() && word == "--" {
            return Ok(Reading {
                guest: Some(place),
                ..self
            });
        }
        refuse(place, Kind::Excess)
    }

    fn word_read(self, place: usize, word: &str) -> Result<Reading, Refusal>
        requires { 0 < place }
        ensures { result ≡ word_read self place word.now }
    {
        if let Some(flag) = self.expects {
            return self.valued(place, word, flag);
        }
        if self.guest.is_some() {
            return self.with_string(place, word);
        }
        if self.names < self.verb.most_names() {
            return self.before_last(place, word);
        }
        self.after_last(place, word)
    }

    fn guest_words(&self, end: usize) -> GuestWords
        ensures { result ≡ guest_words self.now end }
    {
        GuestWords {
            elf: self.first,
            guest: self.guest.unwrap_or(end),
            seed: self.options.seed.unwrap_or(1),
            steps: self.options.steps.unwrap_or(USUAL_STEPS),
            patches: self.options.patches,
            zero: self.options.zero,
        }
    }

    fn file_words(&self) -> FileWords
        ensures { result ≡ file_words self.now }
    {
        FileWords {
            first: self.first,
            count: self.names,
            out: self.options.out,
        }
    }

    fn command(&self, end: usize) -> Result<Command, Refusal>
        requires { end < 2 ^ 63 }
        ensures { result ≡ command_of self.now end self.now.verb }
    {
        let guest = self.guest_words(end);
        let out = self.options.out;
        Ok(match self.verb {
            Verb::Run => Command::Run {
                guest,
                image: self.options.image,
            },
            Verb::Repair => {
                let Some(out) = out else {
                    return Err(Refusal {
                        place: end + 1,
                        kind: Kind::Missing,
                    });
                };
                Command::Repair {
                    guest,
                    images: self.options.images.unwrap_or(3),
                    out,
                }
            }
            Verb::Replicate => Command::Replicate {
                guest,
                replicas: self.options.replicas.unwrap_or(3),
                quantum: self.options.quantum.unwrap_or(1000),
                out,
            },
            Verb::Merge => Command::Merge(self.file_words()),
            Verb::Isolate => Command::Isolate(self.file_words()),
            Verb::Show => Command::Show { file: self.first },
            Verb::Make => Command::Make {
                n: self.number,
                out,
            },
            Verb::Trial => Command::Trial {
                n: self.number,
                seed: self.options.seed.unwrap_or(1),
            },
            Verb::Judge => Command::Judge { guest },
        })
    }

    fn finished(&self, end: usize) -> Result<Command, Refusal>
        requires { end < 2 ^ 63 }
        ensures { result ≡ finished end self.now }
    {
        if self.expects.is_some() {
            return Err(Refusal {
                place: end + 1,
                kind: Kind::Value,
            });
        }
        if self.names == 0 {
            return Err(Refusal {
                place: end + 1,
                kind: Kind::Missing,
            });
        }
        self.command(end)
    }
}

// The words behind the command.
fn read_from(verb: Verb, words: &[String]) -> Result<Reading, Refusal>
    ensures { result ≡ words_read (begun verb) 2 (map string_bytes words.now) }
{
    let mut reading = begun(verb);
    for (i, word) in words.iter().enumerate() {
        let before = i + 1;
        match reading.word_read(before + 1, word.as_str()) {
            Ok(next) => reading = next,
            Err(refusal) => return Err(refusal),
        }
    }
    Ok(reading)
}

// What a command line asks for.
fn read_all(words: &[String]) -> Result<Command, Refusal>
    ensures { result ≡ words_of (map string_bytes words.now) }
{
    let Some((first, rest)) = words.split_first() else {
        return Err(Refusal {
            place: 1,
            kind: Kind::Command,
        });
    };
    let Some(verb) = verb_of(first.as_str()) else {
        return Err(Refusal {
            place: 1,
            kind: Kind::Command,
        });
    };
    match read_from(verb, rest) {
        Ok(reading) => reading.finished(words.len()),
        Err(refusal) => Err(refusal),
    }
}

/// What a command line asks for, or its first refusal. The words that a guest is given are within the limits
/// of an argument list, and the names of files are among the words.
pub fn read_words(words: &[String]) -> Result<Command, Refusal>
    ensures read { result ≡ words_of (map string_bytes words.now) }
    ensures guest { IfOk result (GivesGuest (map string_bytes words.now)) }
    ensures lasts { IfOk result LastsGuest }
    ensures lies { IfOk result (LiesIn (length (map string_bytes words.now))) }
{
    read_all(words)
}
