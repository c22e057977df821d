// The thirteen kinds of objects: by number, the word, and the least and greatest count of each.
#![tactic(auto)]

ghost use Rattle.std.specs.Prelude.{◌≡◌};
ghost use Rattle.meaning.specs.Kinds.{fewest, most};
ghost use Rattle.kinds.specs.Kinds.{kind_of, kind_at, most_of, word_of};

#[derive(Clone, Copy, PartialEq, Eq, Debug)]
pub enum Kind {
    Os,
    Appmode,
    Task,
    Isr,
    Counter,
    Alarm,
    Resource,
    Event,
    Com,
    Message,
    Networkmessage,
    Ipdu,
    Nm,
}

impl Kind {
    // How many kinds there are.
    pub const COUNT: usize = 13;

    // The kinds in the order of their numbers.
    const ALL: [Kind; Kind::COUNT] = [
        Kind::Os,
        Kind::Appmode,
        Kind::Task,
        Kind::Isr,
        Kind::Counter,
        Kind::Alarm,
        Kind::Resource,
        Kind::Event,
        Kind::Com,
        Kind::Message,
        Kind::Networkmessage,
        Kind::Ipdu,
        Kind::Nm,
    ];

    // The kind of a number; the last for any number past it.
    pub fn of(number: usize) -> Kind
        ensures { kind_of result ≡ kind_at number }
    {
        Kind::ALL.get(number).copied().unwrap_or(Kind::Nm)
    }

    // The fewest objects of the kind that a text may have.
    #[tactic(auto, unfolding(meaning::specs::Kinds::fewest, crate::specs::Kinds::kind_of))]
    pub fn least(self) -> usize
        ensures { result ≡ fewest (kind_of self) }
    {
        match self {
            Kind::Os | Kind::Appmode => 1,
            _ => 0,
        }
    }

    // The most objects of the kind that a text may have, where there is a most.
    #[tactic(auto, unfolding(meaning::specs::Kinds::most, crate::specs::Kinds::most_of, crate::specs::Kinds::kind_of))]
    pub fn most(self) -> Option<usize>
        ensures { result ≡ most_of (most (kind_of self)) }
    {
        match self {
            Kind::Os | Kind::Com | Kind::Nm => Some(1),
            _ => None,
        }
    }

    // Its word.
    #[tactic(auto, unfolding(crate::specs::Kinds::word_of, crate::specs::Kinds::kind_of, meaning::specs::Kinds::kind_number))]
    pub fn word(self) -> &'static [u8]
        ensures { result.now ≡ word_of (kind_of self) }
    {
        match self {
            Kind::Os => b"OS",
            Kind::Appmode => b"APPMODE",
            Kind::Task => b"TASK",
            Kind::Isr => b"ISR",
            Kind::Counter => b"COUNTER",
            Kind::Alarm => b"ALARM",
            Kind::Resource => b"RESOURCE",
            Kind::Event => b"EVENT",
            Kind::Com => b"COM",
            Kind::Message => b"MESSAGE",
            Kind::Networkmessage => b"NETWORKMESSAGE",
            Kind::Ipdu => b"IPDU",
            Kind::Nm => b"NM",
        }
    }
}
