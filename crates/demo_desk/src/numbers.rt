// Topics, documents and runs of the demo by their numbers.
ghost use Rattle.std.specs.Prelude.{◌<◌};
ghost use Rattle.demo_desk.specs.declared.sizes.TheConstants.{TOPICS, DOCUMENTS, RUNS};

/// A topic of the demo, by its number from 0.
#[derive(Clone, Copy)]
pub struct TopicNumber {
    pub number: u32,
    pub ghost within: { number < TOPICS },
}

/// A document of a topic of the demo, by its number from 0.
#[derive(Clone, Copy)]
pub struct DocumentNumber {
    pub number: u32,
    pub ghost within: { number < DOCUMENTS },
}

/// A run of the demo, by its number from 0.
#[derive(Clone, Copy)]
pub struct RunNumber {
    pub number: u32,
    pub ghost within: { number < RUNS },
}
