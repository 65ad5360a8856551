//! Files of version 1 and of version 2: what is taken over, what is refused, what stays as it is.

/// What a file of version 1 becomes.
pub(crate) const TAKEN_OVER: &str = r#"
# A file of version 1 is taken over at its first opening, and once
## in the tables of the old base office
## read from the tables
SELECT * FROM office is 1;1;19724;
SELECT * FROM schedules is D1;added;years;1;none;destroy;
SELECT * FROM schedules2 is refused
SELECT * FROM events is refused
## by the program
init = 0;version 2\n;
## read from the tables
SELECT * FROM office is 1;2;19724;
SELECT * FROM schedules is none
SELECT * FROM schedules2 is D1;added;years;1;none;destroy;
SELECT * FROM events is none
## by the program
init = 0;version 2\n;
## read from the tables
SELECT * FROM office is 1;2;19724;
SELECT * FROM schedules is none
SELECT * FROM schedules2 is D1;added;years;1;none;destroy;
SELECT * FROM events is none
## counts of the tables
[1, 2, 2, 3, 0, 3, 0, 0, 0, 0, 0]

# The base office of a file of version 1 answers as a new one
## in the tables of the old base office
## clients in pieces of 4096
GET /records/1 = 200 OK, application/json, 306: {"added":"2024-01-02","aggregation":1,"class":"FIN","confirmed":null,"digest":"ba7816bf8f01cfea414140de5dae2223b00361a396177a9cb410ff61f20015ad","due":"2025-01-02","ended":null,"event":null,"held":null,"length":3,"number":1,"originated":"2024-01-02","ref":"r1","schedule":"D1","status":"here","title":"r1"}
GET /records/2 = 200 OK, application/json, 306: {"added":"2024-01-02","aggregation":2,"class":"LEG","confirmed":null,"digest":"e3b0c44298fc1c149afbf4c8996fb92427ae41e4649b934ca495991b7852b855","due":"2025-01-02","ended":null,"event":null,"held":null,"length":0,"number":2,"originated":"2024-01-02","ref":"r2","schedule":"D1","status":"here","title":"r2"}
GET /records/3 = 200 OK, application/json, 306: {"added":"2024-01-02","aggregation":1,"class":"FIN","confirmed":null,"digest":"ba7816bf8f01cfea414140de5dae2223b00361a396177a9cb410ff61f20015ad","due":"2025-01-02","ended":null,"event":null,"held":null,"length":3,"number":3,"originated":"2024-01-02","ref":"r3","schedule":"D1","status":"here","title":"r3"}
GET /records/1/content = 200 OK, application/octet-stream, 3: abc
GET /records/2/content = 200 OK, application/octet-stream, 0:
GET /records/3/content = 200 OK, application/octet-stream, 3: abc
GET /due/2025-01-02 = 200 OK, application/json, 367: [{"action":"destroy","class":"FIN","confirmed":false,"due":"2025-01-02","held":null,"record":1,"ref":"r1","schedule":"D1"},{"action":"destroy","class":"LEG","confirmed":false,"due":"2025-01-02","held":null,"record":2,"ref":"r2","schedule":"D1"},{"action":"destroy","class":"FIN","confirmed":false,"due":"2025-01-02","held":null,"record":3,"ref":"r3","schedule":"D1"}]
GET /due/2025-01-01 = 200 OK, application/json, 2: []
GET /due/2025-1-2 = 400 Bad Request, application/json, 15: {"error":"day"}
GET /records/4 = 404 Not Found, application/json, 18: {"error":"record"}
GET /records/01 = 404 Not Found, application/json, 18: {"error":"record"}
GET /records/4/content = 404 Not Found, application/json, 19: {"error":"content"}
GET /certificates/1 = 404 Not Found, application/json, 23: {"error":"certificate"}
GET /nothing = 404 Not Found, application/json, 16: {"error":"path"}
## at the desk
2024-01-01 add-schedule D2 added years 2 destroy = refused 1
2024-01-02 add-schedule D1 added years 2 destroy = refused 4
2025-01-02 confirm 1 destroy = done
2025-01-02 open-run = number 1
2025-01-02 run-step = step 1 destroyed
2025-01-02 run-step = closed 1
## read from the tables
SELECT * FROM office is 1;2;20090;

# A new office of version 1, without schedules
## in the tables of version 1
INSERT INTO office VALUES (1, 1, -719162)
## by the program
init = 0;version 2\n;
## read from the tables
SELECT * FROM office is 1;2;-719162;
SELECT * FROM schedules2 is none
## at the desk
2024-01-02 add-schedule D1 added years 1 destroy = done
## read from the tables
SELECT * FROM schedules is none
SELECT * FROM schedules2 is D1;added;years;1;none;destroy;

# A file of version 1 is not taken over without memory for its rows, and stays as it is
## in the tables of the old base office
## taken over by memory
with 12 rows
## read from the tables
SELECT * FROM office is 1;1;19724;
SELECT * FROM schedules2 is refused

# A full table of schedules is taken over whole
## in the tables of version 1
INSERT INTO office VALUES (1, 1, 19724)
INSERT INTO schedules WITH RECURSIVE n(i) AS (SELECT 1 UNION ALL SELECT i + 1 FROM n WHERE i < 1000) SELECT 'X' || i, 'added', 'days', i, 'none', 'keep' FROM n
## by the program
init = 0;version 2\n;
## read from the tables
SELECT count(*) FROM schedules is 0;
SELECT count(*), min(span), max(span), sum(span) FROM schedules2 is 1000;1;1000;500500;
SELECT * FROM schedules2 WHERE code = 'X1000' is X1000;added;days;1000;none;keep;
## at the desk
2024-01-02 add-schedule D1 added years 1 destroy = refused 6
2024-01-02 add-class FIN X1000 = done
## in the tables
DELETE FROM schedules2 WHERE code = 'X1'
## at the desk
2024-01-02 add-schedule D1 added years 1 destroy = done
2024-01-02 add-schedule D2 added years 1 destroy = refused 6

# The busy office of version 1 goes on where it was
## at the desk of the busy office
## in the tables
INSERT INTO schedules SELECT * FROM schedules2; DROP TABLE schedules2; DROP TABLE events; UPDATE office SET version = 1
## read from the tables
SELECT * FROM schedules2 is refused
## at the desk
record 4 has "status":"sent"
record 5 has "status":"received"
entries is run 1 record 1 destroyed; run 1 record 2 skipped; run 1 record 4 sent; run 1 record 5 sent; run 1 record 6 sent; run 2 record 2 skipped; run 2 record 5 skipped; run 2 record 6 transferred; run 3 record 2 skipped;
2025-01-02 run-step = step 5 skipped
2025-01-02 run-step = closed 3
## read from the tables
SELECT count(*) FROM schedules is 0;
SELECT count(*) FROM schedules2 is 3;
"#;

/// What is no file of either version, and is left as it is.
pub(crate) const REFUSED: &str = r#"
# The tables of version 2 have no row in `schedules`, and their version
## at the desk of the base office
## tried on the tables
opened after UPDATE office SET version = 2
fault 33 after INSERT INTO schedules SELECT * FROM schedules2
fault 33 after INSERT INTO schedules VALUES ('Z', 'added', 'days', 1, 'none', 'keep')
fault 33 after INSERT INTO schedules SELECT * FROM schedules2; DELETE FROM schedules2
opened after INSERT INTO events VALUES (1, 19724, 19724, 'x')
opened after INSERT INTO schedules2 VALUES ('E', 'event', 'days', 1, 'none', 'keep')
fault 33 after UPDATE office SET version = 1
fault 34 after UPDATE office SET version = 0
fault 34 after UPDATE office SET version = 3
fault 33 after DROP TABLE events
fault 33 after DROP TABLE schedules2
fault 33 after DROP TABLE events; DROP TABLE schedules2
fault 34 after DROP TABLE events; DROP TABLE schedules2; UPDATE office SET version = 3
fault 33 after DROP TABLE events; DROP TABLE schedules2; UPDATE office SET version = 1

# A later table beside no office is refused, and nothing is made for each <n> of schedules2 events
## in the tables
CREATE TABLE <n>(x INTEGER) STRICT
## by the program
init = 3;;office: fault 33\n
## read from the tables
SELECT * FROM <n> is none
SELECT * FROM office is refused
SELECT * FROM schedules is refused

# A table of another name beside no office does no harm
## in the tables
CREATE TABLE notes(x INTEGER) STRICT
## by the program
init = 0;version 2\n;
## read from the tables
SELECT * FROM notes is none
SELECT * FROM office is 1;2;-719162;

# A file of version 1 is examined before it is taken over
## in the tables of the old base office
## tried on the tables
opened after UPDATE office SET version = 1
fault 33 after UPDATE records SET status = 'gone'
fault 33 after INSERT INTO office VALUES (2, 1, 19724)
fault 33 after CREATE TABLE events(record INTEGER PRIMARY KEY, occurred INTEGER NOT NULL, day INTEGER NOT NULL, told_by TEXT NOT NULL) STRICT
fault 33 after CREATE TABLE schedules2(x INTEGER) STRICT
fault 33 after CREATE TABLE schedules2(x INTEGER) STRICT; CREATE TABLE events(x INTEGER) STRICT
fault 33 after UPDATE office SET version = 2
fault 34 after UPDATE office SET version = 9
fault 34 after UPDATE office SET version = 0
fault 33 after DELETE FROM office
fault 33 after DELETE FROM schedules
fault 33 after UPDATE schedules SET unit = 'day'
fault 33 after UPDATE schedules SET span = 501
fault 33 after INSERT INTO schedules VALUES ('', 'added', 'days', 1, 'none', 'keep')
fault 33 after UPDATE aggregations SET parent = 2 WHERE num = 2
fault 33 after DELETE FROM contents WHERE record = 3
fault 33 after INSERT INTO runs VALUES (1, 19724, 'registrar', 0, 1)
fault 33 after UPDATE records SET added = 19725
opened after CREATE TABLE notes(x INTEGER) STRICT
opened after UPDATE contents SET bytes = x'00'
opened after INSERT INTO schedules VALUES ('Z', 'review', 'days', 1, 'none', 'keep')

# A damaged record is fixed, and the file of version 1 is taken over
## in the tables of the old base office
UPDATE records SET status = 'gone' WHERE num = 3
## by the program
init = 3;;office: fault 33\n
## read from the tables
SELECT * FROM office is 1;1;19724;
SELECT * FROM schedules is D1;added;years;1;none;destroy;
SELECT * FROM schedules2 is refused
## in the tables
UPDATE records SET status = 'here' WHERE num = 3
## by the program
init = 0;version 2\n;

# A second row of the office is taken away, and the file of version 1 is taken over
## in the tables of the old base office
INSERT INTO office VALUES (2, 1, 19724)
## by the program
init = 3;;office: fault 33\n
## read from the tables
SELECT version FROM office is 1;1;
SELECT * FROM schedules2 is refused
## in the tables
DELETE FROM office WHERE one = 2
## by the program
init = 0;version 2\n;

# A later table is taken away, and the file of version 1 is taken over
## in the tables of the old base office
CREATE TABLE events(record INTEGER PRIMARY KEY, occurred INTEGER NOT NULL, day INTEGER NOT NULL, told_by TEXT NOT NULL) STRICT
## by the program
init = 3;;office: fault 33\n
## read from the tables
SELECT version FROM office is 1;
SELECT * FROM events is none
SELECT * FROM schedules2 is refused
## in the tables
DROP TABLE events
## by the program
init = 0;version 2\n;

# Another version is put back, and the file of version 1 is taken over
## in the tables of the old base office
UPDATE office SET version = 9
## by the program
init = 3;;office: fault 34\n
## read from the tables
SELECT version FROM office is 9;
SELECT * FROM schedules2 is refused
## in the tables
UPDATE office SET version = 1
## by the program
init = 0;version 2\n;

# The busy office of version 1 is examined as that of version 2 is
## at the desk of the busy office
## in the tables
INSERT INTO schedules SELECT * FROM schedules2; DROP TABLE schedules2; DROP TABLE events; UPDATE office SET version = 1
## tried on the tables
opened after UPDATE office SET version = 1
opened after UPDATE office SET day = 20091
fault 33 after UPDATE office SET day = 20089
fault 33 after DELETE FROM schedules WHERE code = 'V'
fault 33 after DELETE FROM classes WHERE code = 'FIN'
fault 33 after UPDATE entries SET schedule = 'NON' WHERE run = 1 AND record = 4
fault 33 after INSERT INTO targets VALUES ('L', 'record', '8')
fault 33 after UPDATE aggregations SET closed = 20000 WHERE num = 1
fault 33 after UPDATE records SET conf_action = NULL WHERE num = 2
fault 33 after UPDATE records SET receipt_day = NULL WHERE num = 5
fault 33 after DELETE FROM entries WHERE run = 2 AND record = 6
fault 33 after UPDATE runs SET place = 1 WHERE num = 3
fault 33 after DELETE FROM certificates WHERE run = 1
fault 33 after INSERT INTO runs VALUES (4, 20090, 'registrar', 0, 0)
fault 33 after UPDATE entries SET hold = NULL WHERE run = 1 AND record = 2
"#;

/// A file of version 1 is opened while a disk stops.
pub(crate) const STOPPED_OPENING: &str = "
# The base office of version 1 is opened
## in the tables of the old base office
## closed
## opened while a disk stops
at least 8
## read from the tables
SELECT * FROM office is 1;2;19724;
SELECT * FROM schedules is none
SELECT * FROM schedules2 is D1;added;years;1;none;destroy;
SELECT * FROM events is none
## at the desk
record 1 has \"due\":\"2025-01-02\"

# A hundred schedules of version 1 are taken over, from a file and its log
## in the tables of version 1
INSERT INTO office VALUES (1, 1, 19724)
INSERT INTO schedules WITH RECURSIVE n(i) AS (SELECT 1 UNION ALL SELECT i + 1 FROM n WHERE i < 100) SELECT 'X' || i, 'last-addition', 'months', i, 'from-month-12', 'transfer' FROM n
## opened while a disk stops
at least 8
## read from the tables
SELECT count(*) FROM schedules is 0;
SELECT count(*), sum(span) FROM schedules2 is 100;5050;
";
