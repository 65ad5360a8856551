//! What else a file has stays as it is: tables of other programs, their indexes and views.

/// The office is made beside them, works, is refused and is made one of version 2.
pub(crate) const OTHERS: &str = r#"
# An office is made beside other tables, does each kind of act, and leaves them as they are
## in the tables of an earlier program
## at the desk of the base office
## in the tables of a later program
## read from the tables
SELECT * FROM taxes is 1;Real(1.5);3;Null;
SELECT * FROM in_hall is -3;Ann;6;Bo;
SELECT * FROM listed is 1;r1;here;2;r2;here;3;r3;here;
SELECT * FROM visited is Bo;r1;here;Cy;r2;here;
## at the desk
2024-01-03 add-schedule T added years 1 transfer = done
2024-01-03 add-schedule V added days 1 review = done
2024-01-03 add-schedule E event years 1 destroy = done
2024-01-03 add-class NEW T = done
2024-01-03 set-class-schedule LEG E = done
2024-01-03 add-child C 1 - = number 3
2024-01-03 add-record r4 3 abcd = number 4
2024-01-03 close-aggregation 3 = done
2024-01-03 set-record-schedule 3 V = done
2024-01-03 event 2 2024-01-02 = done
2024-01-04 review 3 D1 = done
2024-01-04 reclassify record 4 NEW = done
2024-01-04 place-hold H = done
2024-01-04 hold-on H record 3 = done
2024-01-04 hold-on H class LEG = done
2024-01-04 hold-off H class LEG = done
2025-01-04 confirm <n> destroy = done for each <n> of 1 2 3
2025-01-04 confirm 4 transfer = done
2025-01-04 open-run = number 1
2025-01-04 run-step = step 1 destroyed
resume = closed 1
2025-01-04 receipt 4 abcd = done
2025-01-04 lift-hold H = done
content 1 is none
content 2 is none
## by the program
init = 0;version 2\n;
import 2025-01-05 ref,title,originated,aggregation,class,schedule,content\nr5,Lease,2023-05-01,1,,,YWJj\n = 0;1 number 5\n;
apply [{"act":"open-run","day":"2025-01-05","by":"registrar"}] = 0;{"number":2}\n;
resume = 0;certificate 2\n;
export entries = 0;*;
overdue 2025-02-05 0 = 0;*;
## closed
## read from the tables
SELECT * FROM taxes is 1;Real(1.5);3;Null;
SELECT * FROM in_hall is -3;Ann;6;Bo;
SELECT * FROM listed is 1;r1;ended;2;r2;ended;3;r3;ended;4;r4;ended;5;r5;here;
SELECT * FROM visited is Bo;r1;ended;Cy;r2;ended;
SELECT * FROM notes is 1;tax;Null;Real(1.5);Blob([0, 255]);2;law;1;Real(-2.25);Null;3;tax;2;Null;Blob([]);
SELECT * FROM sqlite_sequence is notes;4;
SELECT rowid, * FROM office_hours is 1;Monday;8;2;Monday;8;3;Null;Null;4;no day;late;
SELECT * FROM records_old is 1;r1;before;9;r9;before;
SELECT * FROM schedules22 is D1;
SELECT num, visitor FROM visits WHERE guide = 6 is 7;Cy;
## in the tables
INSERT INTO notes(subject, above) VALUES ('new', 3); INSERT OR IGNORE INTO notes(subject, above) VALUES ('law', 1)
INSERT OR IGNORE INTO visits VALUES (9, 'Bo', NULL, NULL), (10, 'Dee', NULL, 7)
## read from the tables
SELECT id, subject, above FROM notes WHERE id > 3 is 5;new;3;
SELECT num, guide FROM visits WHERE num > 7 is 10;7;
## at the desk
record 5 has "ref":"r5"

# Other tables of many pages stay beside an office that grows among them
## in the tables
CREATE TABLE leaves(num INTEGER PRIMARY KEY, leaf TEXT NOT NULL UNIQUE); INSERT INTO leaves WITH RECURSIVE n(i) AS (SELECT 1 UNION ALL SELECT i + 1 FROM n WHERE i < 400) SELECT i * 7, 'a leaf of the book, number ' || i FROM n
## at the desk of the busy office
## in the tables
CREATE TABLE roots(num INTEGER PRIMARY KEY, leaf INTEGER REFERENCES roots(num)); INSERT INTO roots WITH RECURSIVE n(i) AS (SELECT 1 UNION ALL SELECT i + 1 FROM n WHERE i < 400) SELECT i, i FROM n
CREATE INDEX by_leaf ON roots(leaf); DELETE FROM leaves WHERE num > 700 AND num < 2100
## at the desk
2025-01-02 add-record r<n> 1 abcdefgh = number <n> for each <n> of 8 to 40
resume = closed 3
## closed
## read from the tables
SELECT count(*), min(num), max(num) FROM leaves is 201;7;2800;
SELECT num FROM leaves WHERE leaf = 'a leaf of the book, number 333' is 2331;
SELECT num FROM roots WHERE leaf = 333 is 333;

# A file of version 1 with other tables is taken over, and leaves them as they are
## in the tables of an earlier program
## in the tables of the old base office
## in the tables of a later program
## tried on the tables
fault 33 after UPDATE records SET status = 'gone'
fault 33 after UPDATE office SET version = 2
fault 34 after UPDATE office SET version = 9
fault 33 after CREATE TABLE events(x INTEGER) STRICT
opened after DROP VIEW listed; DELETE FROM visits WHERE num = 7
## by the program
init = 0;version 2\n;
## read from the tables
SELECT * FROM office is 1;2;19724;
SELECT * FROM schedules is none
SELECT * FROM schedules2 is D1;added;years;1;none;destroy;
SELECT * FROM taxes is 1;Real(1.5);3;Null;
SELECT * FROM in_hall is -3;Ann;6;Bo;
SELECT * FROM visited is Bo;r1;here;Cy;r2;here;
## at the desk
2025-01-02 confirm 1 destroy = done
2025-01-02 open-run = number 1
resume = closed 1
## closed
## read from the tables
SELECT * FROM listed is 1;r1;ended;2;r2;here;3;r3;here;

# What is refused leaves the other tables as they are
## in the tables of an earlier program
## at the desk of the base office
## in the tables of a later program
## tried on the tables
opened after DELETE FROM notes WHERE id = 3
fault 33 after UPDATE records SET status = 'gone'
fault 33 after INSERT INTO schedules VALUES ('Z', 'added', 'days', 1, 'none', 'keep')
fault 34 after UPDATE office SET version = 3
fault 33 after DROP TABLE events
## in the tables
DELETE FROM contents WHERE record = 2
## by the program
init = 3;;office: fault 33\n
resume = 3;;office: fault 33\n

# A table of another of the twelve names and no office is refused, and nothing is made for each <n> of classes targets events
## in the tables of an earlier program
CREATE TABLE <n>(x INTEGER) STRICT
## by the program
init = 3;;office: fault 33\n
## read from the tables
SELECT * FROM <n> is none
SELECT * FROM office is refused

# A view of one of the thirteen names and no office is refused, and nothing is made for each <n> of office classes events
## in the tables of an earlier program
CREATE VIEW <n> AS SELECT id FROM notes WHERE id = 2
## by the program
init = 3;;office: fault 31\n
## read from the tables
SELECT * FROM <n> is 2;

# An index of one of the thirteen names and no office is refused, and nothing is made for each <n> of office targets schedules2
## in the tables of an earlier program
CREATE INDEX <n> ON notes(weight)
## by the program
init = 3;;office: fault 31\n
## read from the tables
SELECT * FROM <n> is refused
SELECT id FROM notes WHERE weight = 1.5 is 1;

# A reference onto one of the thirteen names and no office is refused, and nothing is made for each <n> of office records events
## in the tables of an earlier program
CREATE TABLE remarks(id INTEGER PRIMARY KEY, about INTEGER REFERENCES <n>(num))
## by the program
init = 3;;office: fault 31\n
## read from the tables
SELECT * FROM remarks is none
SELECT * FROM <n> is refused

# It is not promised what becomes of a reference onto a table of the office; this one stays
## at the desk of the base office
## in the tables
CREATE TABLE remarks(id INTEGER PRIMARY KEY, record INTEGER REFERENCES records(num)); INSERT INTO remarks VALUES (1, 1), (2, 3)
## at the desk
2025-01-02 confirm 1 destroy = done
2025-01-02 open-run = number 1
resume = closed 1
content 1 is none
"#;

/// A file that C SQLite made (3.40.1, of Python 3.11), with `ANALYZE`. Of its tables `loans` has a
/// trigger and `words` has no rowid: the engine reads neither, and keeps both. Their pages are 7
/// and 6.
pub(crate) const OTHER_FILE: &str = r#"
# A file that C SQLite made gets an office, and its own tables stay as they are
## the bytes of a file
1 0 53514c69746520666f726d617420330010000101004020200000000c00000008
1 43 0800000004
1 59 01
1 95 0c002e63010d000000090c89000f690f170ecd0e740e150dc60d370cd60c89
1 3209 4b0906172525015b7461626c6573716c6974655f737461743173716c6974655f737461743108435245415445205441424c452073716c6974655f73746174312874626c2c6964782c73746174295f0807151717088121766965777461786573746178657343524541544520564945
1 3319 572074617865732041532053454c4543542069642c20616e73776572732046524f4d206c657474657273205748455245207375626a656374203d202774617827810c07071b1b1708817174726967676572636f756e7465646c6f616e73435245415445205452494747455220636f
1 3429 756e74656420414654455220494e53455254204f4e206c6f616e7320424547494e2055504441544520776f726473205345542074696d6573203d2074696d6573202b203120574845524520776f7264203d206e65772e7265616465723b20454e444d0606171717017b7461626c65
1 3539 6c6f616e736c6f616e7307435245415445205441424c45206c6f616e7328696420494e5445474552205052494d415259204b45592c207265616465722054455854295d05071717170181197461626c65776f726473776f72647306435245415445205441424c4520776f72647328
1 3649 776f72642054455854205052494d415259204b45592c2074696d657320494e54454745522920574954484f555420524f574944570407171f1b018101696e64657862795f616e737765726c6574746572730543524541544520554e4951554520494e4445582062795f616e737765
1 3759 72204f4e206c65747465727328616e73776572732c207375626a6563742948030617211b0163696e64657862795f7375626a6563746c6574746572730443524541544520494e4445582062795f7375626a656374204f4e206c657474657273287375626a65637429500206172b2b
1 3869 01597461626c6573716c6974655f73657175656e636573716c6974655f73657175656e636503435245415445205441424c452073716c6974655f73657175656e6365286e616d652c7365712981140107171b1b01817f7461626c656c6574746572736c6574746572730243524541
1 3979 5445205441424c45206c65747465727328696420494e5445474552205052494d415259204b4559204155544f494e4352454d454e542c207375626a6563742054455854204e4f54204e554c4c2c20616e737765727320494e5445474552205245464552454e434553206c65747465
1 4089 72732869642929
2 0 0d000000030fe4000ff70fee0fe40fda
2 4061 0a
2 4068 080304001301746178020702040013096c6177070104001300746178
3 0 0d000000010ff3000ff3
3 4083 0b01031b016c65747465727304
4 0 0a000000030fe9000ff10ff90fe90fe1
4 4068 08000000000703130174617803070313016c61770206031309746178
5 0 0a000000030fe5000ff80fef0fe50fdb
5 4062 0a
5 4069 0904011301027461780308040913016c6177020704001309746178
6 0 0a0ff900020feb000feb0ff3
6 4075 07031301416e6e0205031108426f00000007
7 0 0d000000020ff0000ff80ff0
7 4080 0602030013416e6e0601030013416e6e
8 0 0d000000040fac000ff40fe10fc60fac
8 4012 1804041b21136c65747465727362795f7375626a6563743320321903041b1f176c65747465727362795f616e737765723320312031110204171713776f726473776f7264733220310a010417000f6c6f616e7332
digest 31a5f2cb258795ef6a3b2932c7325b32a65e1f4f63f9d328a0878ce2735346d0
## read from the tables
SELECT * FROM sqlite_stat1 is loans;Null;2;words;words;2 1;letters;by_answer;3 1 1;letters;by_subject;3 2;
SELECT * FROM sqlite_sequence is letters;4;
SELECT * FROM loans is refused
SELECT * FROM words is refused
## at the desk of the base office
2025-01-02 confirm 1 destroy = done
2025-01-02 open-run = number 1
resume = closed 1
## closed
## read from the tables
SELECT * FROM letters is 1;tax;Null;2;law;1;3;tax;2;
SELECT * FROM taxes is 1;Null;3;2;
SELECT id FROM letters WHERE answers = 1 is 2;
SELECT * FROM sqlite_stat1 is loans;Null;2;words;words;2 1;letters;by_answer;3 1 1;letters;by_subject;3 2;
## the bytes of a file
2 digest cb68575af77d62e5c18d722b40c7fe580f52e4f79a183625a048c2acd6a310c9
3 digest e4f7240ac9439291fac76b5ded04a39f5dfff3cf4dab7a9e47ec1edcf5e987cd
4 digest 62ccea7235853a526061453d03fff01630c5853af6ad611a3a5a7f0d1f3143e0
5 digest 2b5f43a7a4d331b6d195b2a19e8fa14ac5db8f2bd022ceb9888bb0bea34deaa0
6 digest ac5af6b7d427755642a60280def4c77c7c06827454c8624bdfee5332463feb88
7 digest 4cc40eb92d36fc6c7301c115f12a80f9102c2ce2bb1fb5bc5c624ee94f5d2f58
8 digest a11cec5c97db1d07b1499244189f26a2fc0b9c6a8cb98278ea1576a47cb5ba72
"#;

/// The same while a disk stops: an office is made, and one of version 1 is opened.
pub(crate) const STOPPED_BEGINNINGS: &str = "
# An office is made beside other tables
## in the tables of an earlier program
## closed
## asked while a disk stops
record 1 = none, at least 8

# The base office of version 1 is opened, with other tables
## in the tables of an earlier program
## in the tables of the old base office
## in the tables of a later program
## closed
## opened while a disk stops
at least 8
## read from the tables
SELECT * FROM taxes is 1;Real(1.5);3;Null;
SELECT * FROM visited is Bo;r1;here;Cy;r2;here;
";

/// Each kind of act, and a run that destroys, while a disk stops.
pub(crate) const STOPPED_ACTS: &str = "
# Each kind of act is done beside other tables
## at the desk of the base office
2024-01-02 add-schedule T added years 1 transfer = done
2024-01-02 add-schedule V added days 1 review = done
2024-01-02 set-record-schedule 1 T = done
2024-01-02 set-record-schedule 3 V = done
## in the tables of a later program
## closed
## asked while a disk stops
2024-01-03 add-schedule E event years 1 destroy & 2024-01-03 add-class NEW T & 2024-01-03 set-class-schedule LEG E & 2024-01-03 add-child C 1 - & 2024-01-03 add-record r4 3 abcd & 2024-01-03 close-aggregation 3 & 2024-01-03 set-record-schedule 4 D1 & 2024-01-03 event 2 2024-01-02 & 2024-01-03 reclassify record 4 NEW = done & done & done & number 3 & number 4 & done & done & done & done, at least 30
## closed
## at the desk
2025-01-02 confirm 2 destroy = done
## closed
## asked while a disk stops
2025-01-02 review 3 D1 & 2025-01-03 place-hold H & 2025-01-04 hold-on H record 3 & 2025-01-05 hold-off H record 3 & 2025-01-06 lift-hold H & 2025-01-06 confirm 1 transfer & 2025-01-06 open-run & 2025-01-06 run-step & 2025-01-06 receipt 1 abc = done & done & done & done & done & done & number 1 & step 1 sent & done, at least 30
## closed
## resumed while a disk stops
by 2 steps = closed 1, at least 8
## at the desk
resume = closed 1
content 2 is none
## read from the tables
SELECT * FROM in_hall is -3;Ann;6;Bo;
SELECT * FROM listed is 1;r1;received;2;r2;ended;3;r3;here;4;r4;here;
SELECT * FROM visited is Bo;r1;received;Cy;r2;ended;
";
