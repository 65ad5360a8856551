//! Tables of other programs in an office's file, made before the office's own or after them.

/// Before the office: a table with a key that is counted on, a reference to itself and two indexes,
/// one of them UNIQUE; one without a key; two whose names only begin as those of the office's
/// tables; and a view whose rows an index finds.
pub(crate) const EARLIER: &str = "
CREATE TABLE notes(id INTEGER PRIMARY KEY AUTOINCREMENT, subject TEXT NOT NULL, above INTEGER REFERENCES notes(id), weight REAL, body BLOB);
INSERT INTO notes(subject, above, weight, body) VALUES ('tax', NULL, 1.5, x'00ff'), ('law', 1, -2.25, NULL), ('tax', 2, NULL, x''), ('gone', 3, 0.0, NULL);
DELETE FROM notes WHERE subject = 'gone';
CREATE INDEX by_subject ON notes(subject);
CREATE UNIQUE INDEX by_place ON notes(subject, above);
CREATE TABLE office_hours(day TEXT, opens INTEGER);
INSERT INTO office_hours VALUES ('Monday', 8), ('Monday', 8), (NULL, NULL), ('no day', 'late');
CREATE TABLE records_old(num INTEGER PRIMARY KEY, ref TEXT NOT NULL UNIQUE, title TEXT NOT NULL) STRICT;
INSERT INTO records_old VALUES (1, 'r1', 'before'), (9, 'r9', 'before');
CREATE TABLE schedules22(code TEXT PRIMARY KEY) STRICT;
INSERT INTO schedules22 VALUES ('D1');
CREATE VIEW taxes AS SELECT id, weight FROM notes WHERE subject = 'tax'
";

/// After the office: a table with a reference to itself, a UNIQUE and two indexes, one of them
/// UNIQUE; a view whose rows an index finds, one over `records`, and one over both.
pub(crate) const LATER: &str = "
CREATE TABLE visits(num INTEGER PRIMARY KEY, visitor TEXT NOT NULL UNIQUE, room TEXT, guide INTEGER REFERENCES visits(num));
INSERT INTO visits VALUES (-3, 'Ann', 'hall', NULL), (6, 'Bo', 'hall', -3), (7, 'Cy', NULL, 6);
CREATE INDEX by_guide ON visits(guide);
CREATE UNIQUE INDEX by_room ON visits(room, visitor);
CREATE VIEW in_hall AS SELECT num, visitor FROM visits WHERE room = 'hall';
CREATE VIEW listed AS SELECT num, ref, status FROM records;
CREATE VIEW visited AS SELECT v.visitor, r.ref, r.status FROM visits v JOIN records r ON r.num = v.num - 5
";
