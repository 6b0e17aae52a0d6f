//! What is told of each refusal, in order of number.

use ing_refusals::Refusal;
use std::fmt;

/// What a person is told of a refusal (own).
#[derive(Clone, Copy, Debug)]
pub struct Page {
    /// Which refusal it is.
    pub refusal: Refusal,
    /// What it means.
    pub meaning: &'static str,
    /// When it comes, and in the place of what.
    pub when: &'static str,
    /// What to do.
    pub advice: &'static str,
}

/// Its number and its name in one line, and a line for each of what it means, when it comes and what to do.
impl fmt::Display for Page {
    fn fmt<W: fmt::Write>(&self, f: &mut fmt::Formatter<W>) -> fmt::Result {
        let number = self.refusal.number();
        let name = self.refusal.name();
        writeln!(f, "{number} {name}")?;
        let meaning = self.meaning;
        writeln!(f, "  means: {meaning}")?;
        let when = self.when;
        writeln!(f, "  comes: {when}")?;
        let advice = self.advice;
        writeln!(f, "  do:    {advice}")
    }
}

/// What is told of each refusal: all 41, in order of number.
pub(crate) static TABLE: [Page; 43] = [
    Page {
        refusal: Refusal::NoMemory,
        meaning: "Memory ran out.",
        when: "At any moment: the run ends with status 3 and no report.",
        advice: "Give it more memory and start again; push again what was not durable.",
    },
    Page {
        refusal: Refusal::BadName,
        meaning: "A label name is not one or more of a-z A-Z 0-9 _, or begins with a digit.",
        when: "In the place of a stream of a push; `at` counts its labels from 0, in byte order of names.",
        advice: "Rename the label, with an underscore for a dot, a dash or a colon.",
    },
    Page {
        refusal: Refusal::TwiceNamed,
        meaning: "Two labels of one stream have one name.",
        when: "Of the library alone; the labels of a line never have it.",
        advice: "Give each label once.",
    },
    Page {
        refusal: Refusal::NoLabels,
        meaning: "No label of the stream has a value; one with an empty value counts as absent.",
        when: "In the place of a stream of a push.",
        advice: "Give the stream a label with a value, such as {\"job\":\"app\"}.",
    },
    Page {
        refusal: Refusal::TooMany,
        meaning: "The stream has more labels with a value than `max_label_names`.",
        when: "In the place of a stream of a push.",
        advice: "Move what varies into the line, or raise `max_label_names`, up to 64.",
    },
    Page {
        refusal: Refusal::NameTooLong,
        meaning: "A label name has more bytes than `max_label_name_length`.",
        when: "In the place of a stream of a push; `at` counts its labels from 0, in byte order of names.",
        advice: "Shorten the name, or raise `max_label_name_length`, up to 1024.",
    },
    Page {
        refusal: Refusal::ValueTooLong,
        meaning: "A label value has more bytes than `max_label_value_length`.",
        when: "In the place of a stream of a push; `at` counts its labels from 0, in byte order of names.",
        advice: "Move the value into the line, or raise `max_label_value_length`, up to 2048.",
    },
    Page {
        refusal: Refusal::NotCanonical,
        meaning: "A text is no canonical name of a stream.",
        when: "Of the library alone, where such a name is read; `at` tells where it goes wrong, in bytes.",
        advice: "Spell it as replies do: names in byte order, and a comma and a space between labels.",
    },
    Page {
        refusal: Refusal::BadSelector,
        meaning: "The text of a query is no selector.",
        when: "In the place of the command that has it; `at` tells where its text goes wrong, in bytes.",
        advice: "Write {name=\"value\", other!=\"value\"}; there are no =~, no !~ and no filters.",
    },
    Page {
        refusal: Refusal::TooWide,
        meaning: "No matcher of the selector is `=` with a value.",
        when: "In the place of the command that has it.",
        advice: "Add a matcher that asks for one value, such as job=\"app\".",
    },
    Page {
        refusal: Refusal::NotToml,
        meaning: "The settings file is no TOML document.",
        when: "Before any input is read; status 1.",
        advice: "Mend the file at the line that the settings command tells.",
    },
    Page {
        refusal: Refusal::UnknownSetting,
        meaning: "There is no setting of a name in the settings file.",
        when: "Before any input is read; status 1.",
        advice: "Mend the spelling; for one tenant there are the limits alone, in a table tenants.TENANT.",
    },
    Page {
        refusal: Refusal::BadSetting,
        meaning: "A setting is out of its range, or of another type.",
        when: "Before any input is read; status 1.",
        advice: "Durations are texts such as \"30m\", other values whole numbers in a range.",
    },
    Page {
        refusal: Refusal::Truncated,
        meaning: "The bytes of an object end within a field.",
        when: "Of the library alone, where a chunk or an index row is read.",
        advice: "Take the object from a copy.",
    },
    Page {
        refusal: Refusal::BadMagic,
        meaning: "The bytes do not begin as an object of their kind does.",
        when: "Of the library alone, where a chunk or an index row is read.",
        advice: "Look whether it is the object that was meant.",
    },
    Page {
        refusal: Refusal::BadVersion,
        meaning: "An object has a version that is not known.",
        when: "Of the library alone, where a chunk or an index row is read.",
        advice: "Read it by the program that wrote it.",
    },
    Page {
        refusal: Refusal::BadField,
        meaning: "A field of an object has a value that it may not have.",
        when: "Of the library alone, where a chunk or an index row is read.",
        advice: "Take the object from a copy.",
    },
    Page {
        refusal: Refusal::OutOfOrder,
        meaning: "An entry of an object does not come after the one before it.",
        when: "Of the library alone, where a chunk is read.",
        advice: "Take the object from a copy.",
    },
    Page {
        refusal: Refusal::Trailing,
        meaning: "The bytes of an object go on after its last field.",
        when: "Of the library alone, where a chunk or an index row is read.",
        advice: "Take the object from a copy.",
    },
    Page {
        refusal: Refusal::CounterFull,
        meaning: "A count would pass its last value: entries 2^62, streams or the chunks of a stream 2^32-1.",
        when: "In the place of a stream of a push; with status 3 where no ingester was opened.",
        advice: "Begin with a new folder.",
    },
    Page {
        refusal: Refusal::Failed,
        meaning: "The store did not do what it was asked.",
        when: "Over a folder, before any input is read; status 2. A flush counts what failed and goes on.",
        advice: "Look at rights, path and disk of the folder's objects, and start again.",
    },
    Page {
        refusal: Refusal::Damaged,
        meaning: "The store has not the bytes that it was given.",
        when: "Over a folder, before any input is read, of an object that a log lists; status 2.",
        advice: "Restore the folder's objects from a copy.",
    },
    Page {
        refusal: Refusal::DamagedLog,
        meaning: "What stands behind whole records of a log is none, or does not fit: a power cut, a changed file or a later version.",
        when: "Over a folder, before any input is read; status 2.",
        advice: "ingestctl check tells which; ingestctl mend cuts the log there and keeps what it had. Restore a changed file.",
    },
    Page {
        refusal: Refusal::OtherSettings,
        meaning: "The log was written with other `shards`, `chunk_block_size` or `chunk_target_size`.",
        when: "Over a folder, before any input is read; status 2.",
        advice: "Start with those settings, or begin a new folder.",
    },
    Page {
        refusal: Refusal::Stranger,
        meaning: "A ticket is of another shard, or its flight is not open.",
        when: "Of the library alone, where the end of an upload is told.",
        advice: "Give each ticket once, to the shard that gave it out.",
    },
    Page {
        refusal: Refusal::QueueFull,
        meaning: "The flush queue has no room.",
        when: "Of the library alone; a sweep leaves to the next one what finds the queue full.",
        advice: "Flush more often, or raise `flush_queue_length`, up to 65536.",
    },
    Page {
        refusal: Refusal::StoreFault,
        meaning: "The store did not give an object that a query needs.",
        when: "In the place of a query.",
        advice: "Look at rights and disk of the folder's objects, and ask again.",
    },
    Page {
        refusal: Refusal::BadObject,
        meaning: "What the store gave is not the chunk that is listed.",
        when: "In the place of a query; over a folder also before any input is read, with status 2.",
        advice: "Restore the folder's objects from a copy.",
    },
    Page {
        refusal: Refusal::StillOut,
        meaning: "Shares of a ledger are out.",
        when: "In the place of a report, by contract; none has been seen.",
        advice: "Keep the input, and report it as a fault of the program.",
    },
    Page {
        refusal: Refusal::Mismatch,
        meaning: "An entry does not stand once and alike in a shard and in the diaries of its pushers.",
        when: "In the place of the report of channels with diaries.",
        advice: "Keep the folder and all replies, and report it as a fault of the program.",
    },
    Page {
        refusal: Refusal::BadTenant,
        meaning: "The tenant is not 1 to 150 letters, digits and !-_.*'(), or is . or ..",
        when: "In the place of a line.",
        advice: "Rename the tenant.",
    },
    Page {
        refusal: Refusal::BadStamp,
        meaning: "A time is not 1 to 19 digits, or passes 2^63-1 nanoseconds.",
        when: "In the place of a line, for `now`, the stamp of a value or of `after`, `start` or `end`.",
        advice: "Write nanoseconds since 1970, a text of digits with no sign and no point.",
    },
    Page {
        refusal: Refusal::TooManyEntries,
        meaning: "There are more entries of one stream than `max_entries_per_push`.",
        when: "In the place of a stream of a push.",
        advice: "Push fewer at once, or raise `max_entries_per_push`, up to 10000.",
    },
    Page {
        refusal: Refusal::BadCommand,
        meaning: "The line is no JSON object of a command with its members.",
        when: "In the place of a line.",
        advice: "Look at the member that the explain command tells, or where it says that the JSON ends.",
    },
    Page {
        refusal: Refusal::Metadata,
        meaning: "A value of a push has a third element, as structured metadata has.",
        when: "In the place of a line.",
        advice: "Leave the third element out: .streams[].values[] |= .[:2] in jq.",
    },
    Page {
        refusal: Refusal::LogFault,
        meaning: "The folder or a log cannot be made, opened or read.",
        when: "Over a folder, before any input is read; status 2.",
        advice: "Look at rights, path and disk of the folder.",
    },
    Page {
        refusal: Refusal::InputFault,
        meaning: "The input could not be read.",
        when: "At the end of a run, with status 2 and no report; whole lines read before are answered.",
        advice: "Look at what feeds the program, and push again what was not answered.",
    },
    Page {
        refusal: Refusal::OutputFault,
        meaning: "The output could not be written.",
        when: "At the end of a run, with status 2 and no report.",
        advice: "Look at what reads the replies; what was done and not told may be in the store.",
    },
    Page {
        refusal: Refusal::BadArguments,
        meaning: "There are more than two argument words, one is not UTF-8, or that of the folder is empty.",
        when: "Before any input is read; status 1.",
        advice: "Give at most the settings file and the folder.",
    },
    Page {
        refusal: Refusal::NoSettings,
        meaning: "The settings file cannot be read.",
        when: "Before any input is read; status 1.",
        advice: "Look at its path and rights.",
    },
    Page {
        refusal: Refusal::Misplaced,
        meaning: "A shard does not stand where its number says.",
        when: "In the place of a report, by contract, or as an ending with status 3; none has been seen.",
        advice: "Keep the input, and report it as a fault of the program.",
    },
    Page {
        refusal: Refusal::FolderInUse,
        meaning: "Another program works in the folder.",
        when: "Before any input is read, with status 2; nothing in the folder is changed.",
        advice: "Wait until that program has ended, or give this one a folder of its own.",
    },
    Page {
        refusal: Refusal::MissingLog,
        meaning: "The folder was begun, and the log of a shard is not in it.",
        when: "Before any input is read, with status 2; nothing in the folder is changed.",
        advice: "Mount the disk, or restore the log from a copy; without it that shard would begin empty.",
    },
];
