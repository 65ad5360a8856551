//! The tables of an office, each with its three statements: that which makes it, that which puts a
//! row in by its key, and that which reads it in the order of its key.
ghost use Rattle.std.specs.Prelude.{◌≡◌};
ghost use Rattle.office_sql.specs.Tables.{create_of, insert_of, text_of};

/// The tables, in the order in which they are made. The columns of each, and their order, are those
/// of the statement that makes it.
#[derive(Clone, Copy)]
pub enum OfficeTable {
    /// One row: the number 1, the version and the day.
    Office,
    /// The schedules of version 1; in version 2 the table has no row.
    OldSchedules,
    Classes,
    Aggregations,
    Records,
    Contents,
    Holds,
    Targets,
    Runs,
    Entries,
    Certificates,
    /// The schedules of version 2.
    Schedules,
    Events,
}

impl OfficeTable {
    /// The statement that makes the table.
    pub fn create(self) -> &'static str
        ensures { result.now ≡ create_of self }
    {
        match self {
            OfficeTable::Office => CREATE_OFFICE,
            OfficeTable::OldSchedules => CREATE_SCHEDULES,
            OfficeTable::Classes => CREATE_CLASSES,
            OfficeTable::Aggregations => CREATE_AGGREGATIONS,
            OfficeTable::Records => CREATE_RECORDS,
            OfficeTable::Contents => CREATE_CONTENTS,
            OfficeTable::Holds => CREATE_HOLDS,
            OfficeTable::Targets => CREATE_TARGETS,
            OfficeTable::Runs => CREATE_RUNS,
            OfficeTable::Entries => CREATE_ENTRIES,
            OfficeTable::Certificates => CREATE_CERTIFICATES,
            OfficeTable::Schedules => CREATE_SCHEDULES2,
            OfficeTable::Events => CREATE_EVENTS,
        }
    }

    /// The statement that puts a row in, in place of those that share a key with it.
    pub fn insert(self) -> &'static str
        ensures { result.now ≡ insert_of self }
    {
        match self {
            OfficeTable::Office => PUT_OFFICE,
            OfficeTable::OldSchedules => PUT_SCHEDULES,
            OfficeTable::Classes => PUT_CLASSES,
            OfficeTable::Aggregations => PUT_AGGREGATIONS,
            OfficeTable::Records => PUT_RECORDS,
            OfficeTable::Contents => PUT_CONTENTS,
            OfficeTable::Holds => PUT_HOLDS,
            OfficeTable::Targets => PUT_TARGETS,
            OfficeTable::Runs => PUT_RUNS,
            OfficeTable::Entries => PUT_ENTRIES,
            OfficeTable::Certificates => PUT_CERTIFICATES,
            OfficeTable::Schedules => PUT_SCHEDULES2,
            OfficeTable::Events => PUT_EVENTS,
        }
    }

    /// The query that reads the table in the order of its key; of `contents` the keys alone.
    pub fn text(self) -> &'static str
        ensures { result.now ≡ text_of self }
    {
        match self {
            OfficeTable::Office => READ_OFFICE,
            OfficeTable::OldSchedules => READ_SCHEDULES,
            OfficeTable::Classes => READ_CLASSES,
            OfficeTable::Aggregations => READ_AGGREGATIONS,
            OfficeTable::Records => READ_RECORDS,
            OfficeTable::Contents => READ_CONTENTS,
            OfficeTable::Holds => READ_HOLDS,
            OfficeTable::Targets => READ_TARGETS,
            OfficeTable::Runs => READ_RUNS,
            OfficeTable::Entries => READ_ENTRIES,
            OfficeTable::Certificates => READ_CERTIFICATES,
            OfficeTable::Schedules => READ_SCHEDULES2,
            OfficeTable::Events => READ_EVENTS,
        }
    }
}

const CREATE_OFFICE: &str =
    "CREATE TABLE office(one INTEGER PRIMARY KEY, version INTEGER NOT NULL, day INTEGER NOT NULL) STRICT";

const PUT_OFFICE: &str = "INSERT OR REPLACE INTO office VALUES (?1, ?2, ?3)";

const READ_OFFICE: &str = "SELECT one, version, day FROM office ORDER BY one";

const CREATE_SCHEDULES: &str =
    "CREATE TABLE schedules(code TEXT PRIMARY KEY, start_at TEXT NOT NULL CHECK (start_at IN ('origin', 'added', 'closed', 'last-addition', 'review')), unit TEXT NOT NULL, span INTEGER NOT NULL, roll TEXT NOT NULL, disposal TEXT NOT NULL) STRICT";

const PUT_SCHEDULES: &str = "INSERT OR REPLACE INTO schedules VALUES (?1, ?2, ?3, ?4, ?5, ?6)";

const READ_SCHEDULES: &str =
    "SELECT code, start_at, unit, span, roll, disposal FROM schedules ORDER BY code";

const CREATE_CLASSES: &str =
    "CREATE TABLE classes(code TEXT PRIMARY KEY, title TEXT NOT NULL, schedule TEXT NOT NULL) STRICT";

const PUT_CLASSES: &str = "INSERT OR REPLACE INTO classes VALUES (?1, ?2, ?3)";

const READ_CLASSES: &str = "SELECT code, title, schedule FROM classes ORDER BY code";

const CREATE_AGGREGATIONS: &str =
    "CREATE TABLE aggregations(num INTEGER PRIMARY KEY, ref TEXT NOT NULL UNIQUE, title TEXT NOT NULL, parent INTEGER, class TEXT, closed INTEGER) STRICT";

const PUT_AGGREGATIONS: &str =
    "INSERT OR REPLACE INTO aggregations VALUES (?1, ?2, ?3, ?4, ?5, ?6)";

const READ_AGGREGATIONS: &str =
    "SELECT num, ref, title, parent, class, closed FROM aggregations ORDER BY num";

const CREATE_RECORDS: &str =
    "CREATE TABLE records(num INTEGER PRIMARY KEY, ref TEXT NOT NULL UNIQUE, title TEXT NOT NULL, originated INTEGER NOT NULL, added INTEGER NOT NULL, aggregation INTEGER NOT NULL, size INTEGER NOT NULL, digest TEXT NOT NULL, status TEXT NOT NULL, class TEXT, schedule TEXT, reviewed INTEGER, reviewed_by TEXT, conf_action TEXT, conf_due INTEGER, conf_day INTEGER, conf_by TEXT, receipt_day INTEGER, receipt_by TEXT) STRICT";

const PUT_RECORDS: &str =
    "INSERT OR REPLACE INTO records VALUES (?1, ?2, ?3, ?4, ?5, ?6, ?7, ?8, ?9, ?10, ?11, ?12, ?13, ?14, ?15, ?16, ?17, ?18, ?19)";

const READ_RECORDS: &str =
    "SELECT num, ref, title, originated, added, aggregation, size, digest, status, class, schedule, reviewed, reviewed_by, conf_action, conf_due, conf_day, conf_by, receipt_day, receipt_by FROM records ORDER BY num";

const CREATE_CONTENTS: &str =
    "CREATE TABLE contents(record INTEGER PRIMARY KEY, bytes BLOB NOT NULL) STRICT";

const PUT_CONTENTS: &str = "INSERT OR REPLACE INTO contents VALUES (?1, ?2)";

const READ_CONTENTS: &str = "SELECT record FROM contents ORDER BY record";

const CREATE_HOLDS: &str =
    "CREATE TABLE holds(code TEXT PRIMARY KEY, reason TEXT NOT NULL, placed INTEGER NOT NULL, placed_by TEXT NOT NULL, lifted INTEGER) STRICT";

const PUT_HOLDS: &str = "INSERT OR REPLACE INTO holds VALUES (?1, ?2, ?3, ?4, ?5)";

const READ_HOLDS: &str = "SELECT code, reason, placed, placed_by, lifted FROM holds ORDER BY code";

const CREATE_TARGETS: &str =
    "CREATE TABLE targets(hold TEXT NOT NULL, kind TEXT NOT NULL, target TEXT NOT NULL, PRIMARY KEY (hold, kind, target)) STRICT";

const PUT_TARGETS: &str = "INSERT OR REPLACE INTO targets VALUES (?1, ?2, ?3)";

const READ_TARGETS: &str = "SELECT hold, kind, target FROM targets ORDER BY hold, kind, target";

const CREATE_RUNS: &str =
    "CREATE TABLE runs(num INTEGER PRIMARY KEY, day INTEGER NOT NULL, opened_by TEXT NOT NULL, place INTEGER NOT NULL, closed INTEGER NOT NULL) STRICT";

const PUT_RUNS: &str = "INSERT OR REPLACE INTO runs VALUES (?1, ?2, ?3, ?4, ?5)";

const READ_RUNS: &str = "SELECT num, day, opened_by, place, closed FROM runs ORDER BY num";

const CREATE_ENTRIES: &str =
    "CREATE TABLE entries(run INTEGER, record INTEGER, outcome TEXT NOT NULL, class TEXT NOT NULL, schedule TEXT NOT NULL, due INTEGER NOT NULL, confirmed_by TEXT NOT NULL, hold TEXT, PRIMARY KEY (run, record)) STRICT";

const PUT_ENTRIES: &str = "INSERT OR REPLACE INTO entries VALUES (?1, ?2, ?3, ?4, ?5, ?6, ?7, ?8)";

const READ_ENTRIES: &str =
    "SELECT run, record, outcome, class, schedule, due, confirmed_by, hold FROM entries ORDER BY run, record";

const CREATE_CERTIFICATES: &str =
    "CREATE TABLE certificates(run INTEGER PRIMARY KEY, body TEXT NOT NULL) STRICT";

const PUT_CERTIFICATES: &str = "INSERT OR REPLACE INTO certificates VALUES (?1, ?2)";

const READ_CERTIFICATES: &str = "SELECT run, body FROM certificates ORDER BY run";

const CREATE_SCHEDULES2: &str =
    "CREATE TABLE schedules2(code TEXT PRIMARY KEY, start_at TEXT NOT NULL CHECK (start_at IN ('origin', 'added', 'closed', 'last-addition', 'review', 'event')), unit TEXT NOT NULL, span INTEGER NOT NULL, roll TEXT NOT NULL, disposal TEXT NOT NULL) STRICT";

const PUT_SCHEDULES2: &str = "INSERT OR REPLACE INTO schedules2 VALUES (?1, ?2, ?3, ?4, ?5, ?6)";

const READ_SCHEDULES2: &str =
    "SELECT code, start_at, unit, span, roll, disposal FROM schedules2 ORDER BY code";

const CREATE_EVENTS: &str =
    "CREATE TABLE events(record INTEGER PRIMARY KEY, occurred INTEGER NOT NULL, day INTEGER NOT NULL, told_by TEXT NOT NULL) STRICT";

const PUT_EVENTS: &str = "INSERT OR REPLACE INTO events VALUES (?1, ?2, ?3, ?4)";

const READ_EVENTS: &str = "SELECT record, occurred, day, told_by FROM events ORDER BY record";
