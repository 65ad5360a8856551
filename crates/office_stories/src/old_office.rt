//! The tables of an office as they were in files of version 1, before the trigger `event`.

/// The eleven tables, as the program made them.
pub(crate) const OLD_TABLES: &str = "
CREATE TABLE office(one INTEGER PRIMARY KEY, version INTEGER NOT NULL, day INTEGER NOT NULL) STRICT;
CREATE TABLE schedules(code TEXT PRIMARY KEY, start_at TEXT NOT NULL CHECK (start_at IN ('origin', 'added', 'closed', 'last-addition', 'review')), unit TEXT NOT NULL, span INTEGER NOT NULL, roll TEXT NOT NULL, disposal TEXT NOT NULL) STRICT;
CREATE TABLE classes(code TEXT PRIMARY KEY, title TEXT NOT NULL, schedule TEXT NOT NULL) STRICT;
CREATE TABLE aggregations(num INTEGER PRIMARY KEY, ref TEXT NOT NULL UNIQUE, title TEXT NOT NULL, parent INTEGER, class TEXT, closed INTEGER) STRICT;
CREATE TABLE records(num INTEGER PRIMARY KEY, ref TEXT NOT NULL UNIQUE, title TEXT NOT NULL, originated INTEGER NOT NULL, added INTEGER NOT NULL, aggregation INTEGER NOT NULL, size INTEGER NOT NULL, digest TEXT NOT NULL, status TEXT NOT NULL, class TEXT, schedule TEXT, reviewed INTEGER, reviewed_by TEXT, conf_action TEXT, conf_due INTEGER, conf_day INTEGER, conf_by TEXT, receipt_day INTEGER, receipt_by TEXT) STRICT;
CREATE TABLE contents(record INTEGER PRIMARY KEY, bytes BLOB NOT NULL) STRICT;
CREATE TABLE holds(code TEXT PRIMARY KEY, reason TEXT NOT NULL, placed INTEGER NOT NULL, placed_by TEXT NOT NULL, lifted INTEGER) STRICT;
CREATE TABLE targets(hold TEXT NOT NULL, kind TEXT NOT NULL, target TEXT NOT NULL, PRIMARY KEY (hold, kind, target)) STRICT;
CREATE TABLE runs(num INTEGER PRIMARY KEY, day INTEGER NOT NULL, opened_by TEXT NOT NULL, place INTEGER NOT NULL, closed INTEGER NOT NULL) STRICT;
CREATE TABLE entries(run INTEGER, record INTEGER, outcome TEXT NOT NULL, class TEXT NOT NULL, schedule TEXT NOT NULL, due INTEGER NOT NULL, confirmed_by TEXT NOT NULL, hold TEXT, PRIMARY KEY (run, record)) STRICT;
CREATE TABLE certificates(run INTEGER PRIMARY KEY, body TEXT NOT NULL) STRICT
";

/// The rows of the base office (`office`) in them.
pub(crate) const OLD_BASE: &str = "
INSERT INTO office VALUES (1, 1, 19724);
INSERT INTO schedules VALUES ('D1', 'added', 'years', 1, 'none', 'destroy');
INSERT INTO classes VALUES ('FIN', 'FIN', 'D1'), ('LEG', 'LEG', 'D1');
INSERT INTO aggregations VALUES (1, 'A', 'A', NULL, 'FIN', NULL), (2, 'B', 'B', NULL, 'LEG', NULL);
INSERT INTO records(num, ref, title, originated, added, aggregation, size, digest, status) VALUES (1, 'r1', 'r1', 19724, 19724, 1, 3, 'ba7816bf8f01cfea414140de5dae2223b00361a396177a9cb410ff61f20015ad', 'here');
INSERT INTO records(num, ref, title, originated, added, aggregation, size, digest, status) VALUES (2, 'r2', 'r2', 19724, 19724, 2, 0, 'e3b0c44298fc1c149afbf4c8996fb92427ae41e4649b934ca495991b7852b855', 'here');
INSERT INTO records(num, ref, title, originated, added, aggregation, size, digest, status) VALUES (3, 'r3', 'r3', 19724, 19724, 1, 3, 'ba7816bf8f01cfea414140de5dae2223b00361a396177a9cb410ff61f20015ad', 'here');
INSERT INTO contents VALUES (1, x'616263'), (2, x''), (3, x'616263')
";
