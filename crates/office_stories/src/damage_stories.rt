//! Tables that other programs changed by a statement or two: do they still represent an office?
//!
//! Four things no statement can do: a trigger that is none of the six words (a CHECK), a value of
//! another type than its column's (STRICT), two aggregations or records of one ref (UNIQUE), and
//! null in a column that must not be null, which those of the keys of `targets` and `entries` are
//! too.

/// Of the base office. Its day, 2024-01-02, is 19724.
pub(crate) const BASE_DAMAGE: &str = r#"
# A statement or two, and the base office is none
## at the desk of the base office
## tried on the tables
fault 33 after DELETE FROM records WHERE num = 2
fault 33 after UPDATE aggregations SET parent = 2 WHERE num = 2
fault 33 after UPDATE aggregations SET class = 'NON' WHERE num = 2
fault 33 after DELETE FROM contents WHERE record = 1
fault 33 after UPDATE records SET status = 'gone' WHERE num = 1
fault 33 after UPDATE records SET conf_by = 'registrar' WHERE num = 1
fault 33 after UPDATE records SET added = 19725 WHERE num = 1
fault 33 after INSERT INTO runs VALUES (1, 19724, 'registrar', 0, 0); INSERT INTO runs VALUES (2, 19724, 'registrar', 0, 0)
fault 33 after INSERT INTO runs VALUES (1, 19724, 'registrar', 0, 1)
fault 33 after INSERT INTO runs VALUES (1, 19724, 'registrar', 1, 0); INSERT INTO entries VALUES (1, 2, 'sent', 'LEG', 'D1', 20090, 'registrar', NULL)
fault 33 after UPDATE aggregations SET parent = 1 WHERE num = 2; UPDATE aggregations SET closed = 19724 WHERE num = 1

# What is like it and yet an office is opened
## at the desk of the base office
## tried on the tables
opened after UPDATE aggregations SET parent = 1 WHERE num = 2
opened after UPDATE aggregations SET class = 'FIN' WHERE num = 2
opened after UPDATE contents SET bytes = x'' WHERE record = 1
opened after UPDATE records SET conf_action = 'destroy', conf_due = 20090, conf_day = 19724, conf_by = 'registrar' WHERE num = 1
opened after UPDATE records SET added = 19723 WHERE num = 1
opened after UPDATE records SET added = 19725 WHERE num = 1; UPDATE office SET day = 19725
opened after INSERT INTO runs VALUES (1, 19724, 'registrar', 0, 0)
opened after INSERT INTO runs VALUES (1, 19724, 'registrar', 0, 1); INSERT INTO certificates VALUES (1, 'x')
opened after INSERT INTO runs VALUES (1, 19724, 'registrar', 0, 1); INSERT INTO certificates VALUES (1, 'x'); INSERT INTO runs VALUES (2, 19724, 'registrar', 0, 0)
opened after INSERT INTO runs VALUES (1, 19724, 'registrar', 2, 0); INSERT INTO entries VALUES (1, 2, 'sent', 'LEG', 'D1', 20090, 'registrar', NULL)
opened after UPDATE aggregations SET parent = 1, closed = 19724 WHERE num = 2; UPDATE aggregations SET closed = 19724 WHERE num = 1

# A gap in the numbers
## at the desk of the base office
## tried on the tables
fault 33 after DELETE FROM records WHERE num = 2; DELETE FROM contents WHERE record = 2
opened after DELETE FROM records WHERE num = 3; DELETE FROM contents WHERE record = 3
fault 33 after UPDATE records SET num = 4 WHERE num = 3; UPDATE contents SET record = 4 WHERE record = 3
fault 33 after UPDATE records SET num = 0 WHERE num = 1; UPDATE contents SET record = 0 WHERE record = 1
fault 33 after UPDATE records SET num = -1 WHERE num = 3; UPDATE contents SET record = -1 WHERE record = 3
fault 33 after UPDATE aggregations SET num = 3 WHERE num = 2; UPDATE records SET aggregation = 3 WHERE num = 2
fault 33 after UPDATE aggregations SET num = 0 WHERE num = 1; UPDATE records SET aggregation = 0 WHERE num = 1
fault 33 after INSERT INTO runs VALUES (2, 19724, 'registrar', 0, 1); INSERT INTO certificates VALUES (2, 'x')
fault 33 after INSERT INTO runs VALUES (0, 19724, 'registrar', 0, 1); INSERT INTO certificates VALUES (0, 'x')

# A content that is not the one of its record keeps nobody from anything else
## at the desk of the base office
## in the tables
UPDATE contents SET bytes = x'616264' WHERE record = 1; UPDATE contents SET bytes = x'00' WHERE record = 2; UPDATE records SET size = 262144 WHERE num = 3
## at the desk
content 1 is fault 33
content 2 is fault 33
content 3 is fault 33
content 4 is none
record 1 has "length":3
record 2 has "length":0
record 3 has "length":262144
due-list 2025-01-02 is [1, 2, 3]
2025-01-02 confirm 1 destroy = done
2025-01-02 open-run = number 1
resume = closed 1
content 1 is none
content 2 is fault 33
## counts of the tables
[1, 2, 2, 3, 0, 2, 0, 0, 1, 1, 1]
"#;

/// Of the busy office, whose day, 2025-01-02, is 20090.
pub(crate) const BUSY_DAMAGE: &str = r#"
# The busy office has something of each kind, and its open run goes on
## at the desk of the busy office
record 1 has "status":"ended"
record 2 has "status":"here"
record 4 has "status":"sent"
record 5 has "status":"received"
record 6 has "status":"ended"
record 7 has "status":"here"
entries is run 1 record 1 destroyed; run 1 record 2 skipped; run 1 record 4 sent; run 1 record 5 sent; run 1 record 6 sent; run 2 record 2 skipped; run 2 record 5 skipped; run 2 record 6 transferred; run 3 record 2 skipped;
## counts of the tables
[3, 2, 4, 7, 0, 5, 2, 4, 3, 9, 2]
## at the desk
2025-01-02 run-step = step 5 skipped
2025-01-02 run-step = closed 3

# There is one row of the office, its version is looked at first, and then its day
## at the desk of the busy office
## tried on the tables
opened after UPDATE office SET day = 20091
opened after UPDATE office SET day = 376199
fault 33 after UPDATE office SET day = 376200
fault 33 after UPDATE office SET day = -719163
fault 33 after UPDATE office SET one = 2
fault 33 after DELETE FROM office
fault 33 after INSERT INTO office VALUES (2, 1, 20090)
fault 33 after INSERT INTO office VALUES (2, 9, 20090)
opened after UPDATE office SET version = 2
fault 33 after UPDATE office SET version = 1
fault 34 after UPDATE office SET version = 3
fault 34 after UPDATE office SET version = -2
fault 34 after UPDATE office SET version = 0
fault 34 after UPDATE office SET version = 9, day = 376200
fault 34 after UPDATE office SET version = 9; DELETE FROM contents

# Codes and words of schedules and classes, and the longest periods
## at the desk of the busy office
## tried on the tables
opened after INSERT INTO schedules2 VALUES ('A123456789-12345', 'added', 'days', 182500, 'none', 'keep')
fault 33 after INSERT INTO schedules2 VALUES ('A123456789-123456', 'added', 'days', 1, 'none', 'keep')
fault 33 after INSERT INTO schedules2 VALUES ('', 'added', 'days', 1, 'none', 'keep')
fault 33 after INSERT INTO schedules2 VALUES ('A 1', 'added', 'days', 1, 'none', 'keep')
fault 33 after INSERT INTO schedules2 VALUES ('É', 'added', 'days', 1, 'none', 'keep')
fault 33 after INSERT INTO schedules2 VALUES ('A1', 'added', 'day', 1, 'none', 'keep')
fault 33 after INSERT INTO schedules2 VALUES ('A1', 'added', 'days', 1, 'never', 'keep')
fault 33 after INSERT INTO schedules2 VALUES ('A1', 'added', 'days', 1, 'none', 'burn')
fault 33 after INSERT INTO schedules2 VALUES ('A1', 'added', 'days', -1, 'none', 'keep')
fault 33 after INSERT INTO schedules2 VALUES ('A1', 'added', 'days', 182501, 'none', 'keep')
opened after INSERT INTO schedules2 VALUES ('A1', 'added', 'weeks', 26000, 'none', 'keep')
fault 33 after INSERT INTO schedules2 VALUES ('A1', 'added', 'weeks', 26001, 'none', 'keep')
opened after INSERT INTO schedules2 VALUES ('A1', 'added', 'months', 6000, 'none', 'keep')
fault 33 after INSERT INTO schedules2 VALUES ('A1', 'added', 'months', 6001, 'none', 'keep')
opened after INSERT INTO schedules2 VALUES ('A1', 'added', 'years', 500, 'none', 'keep')
fault 33 after INSERT INTO schedules2 VALUES ('A1', 'added', 'years', 501, 'none', 'keep')
fault 33 after INSERT INTO schedules2 VALUES ('A1', 'added', 'days', 4294967297, 'none', 'keep')
opened after INSERT INTO classes VALUES ('A1', 'A', 'D1')
fault 33 after INSERT INTO classes VALUES ('A_1', 'A', 'D1')
fault 33 after INSERT INTO classes VALUES ('A1', '', 'D1')
opened after INSERT INTO classes VALUES ('A1', replace('xxxxxxxxxx', 'x', '12345678901234567890'), 'D1')
fault 33 after INSERT INTO classes VALUES ('A1', replace('xxxxxxxxxx', 'x', '12345678901234567890') || '1', 'D1')
fault 33 after INSERT INTO classes VALUES ('A1', 'A' || CAST(x'0a' AS TEXT), 'D1')

# Texts, days and digests of aggregations and records
## at the desk of the busy office
## tried on the tables
fault 33 after UPDATE aggregations SET ref = '' WHERE num = 3
fault 33 after UPDATE aggregations SET title = '' WHERE num = 3
fault 33 after UPDATE aggregations SET class = '' WHERE num = 3
fault 33 after UPDATE aggregations SET closed = -719163 WHERE num = 4
opened after UPDATE aggregations SET closed = -719162 WHERE num = 4
fault 33 after UPDATE records SET ref = '' WHERE num = 3
fault 33 after UPDATE records SET title = '' WHERE num = 3
opened after UPDATE records SET originated = 376199 WHERE num = 3
fault 33 after UPDATE records SET originated = 376200 WHERE num = 3
opened after UPDATE records SET originated = -719162 WHERE num = 3
fault 33 after UPDATE records SET originated = -719163 WHERE num = 3
fault 33 after UPDATE records SET added = -719163 WHERE num = 3
opened after UPDATE records SET size = 262144 WHERE num = 3
fault 33 after UPDATE records SET size = 262145 WHERE num = 3
fault 33 after UPDATE records SET size = 4294967299 WHERE num = 3
fault 33 after UPDATE records SET size = -1 WHERE num = 3
opened after UPDATE records SET digest = '0000000000000000000000000000000000000000000000000000000000000000' WHERE num = 3
fault 33 after UPDATE records SET digest = '000000000000000000000000000000000000000000000000000000000000000' WHERE num = 3
fault 33 after UPDATE records SET digest = '00000000000000000000000000000000000000000000000000000000000000000' WHERE num = 3
fault 33 after UPDATE records SET digest = upper(digest) WHERE num = 3
fault 33 after UPDATE records SET digest = '' WHERE num = 3
fault 33 after UPDATE records SET status = 'Here' WHERE num = 3
fault 33 after UPDATE records SET class = '' WHERE num = 3
fault 33 after UPDATE records SET schedule = '' WHERE num = 3
fault 33 after UPDATE records SET reviewed = -719163 WHERE num = 7
fault 33 after UPDATE records SET reviewed_by = '' WHERE num = 7
opened after UPDATE records SET conf_due = 559155 WHERE num = 2
fault 33 after UPDATE records SET conf_due = 559156 WHERE num = 2
fault 33 after UPDATE records SET conf_due = -719163 WHERE num = 2
fault 33 after UPDATE records SET conf_day = -719163 WHERE num = 2
fault 33 after UPDATE records SET conf_by = '' WHERE num = 2
fault 33 after UPDATE records SET conf_action = 'burn' WHERE num = 2
fault 33 after UPDATE records SET receipt_day = -719163 WHERE num = 5
fault 33 after UPDATE records SET receipt_by = '' WHERE num = 5

# Texts, days and numbers of holds, targets, runs and entries
## at the desk of the busy office
## tried on the tables
opened after INSERT INTO holds VALUES ('A1', 'court', 20000, 'registrar', NULL)
fault 33 after INSERT INTO holds VALUES ('A 1', 'court', 20000, 'registrar', NULL)
fault 33 after UPDATE holds SET reason = '' WHERE code = 'H'
fault 33 after UPDATE holds SET placed = -719163 WHERE code = 'H'
fault 33 after UPDATE holds SET placed_by = '' WHERE code = 'H'
fault 33 after UPDATE holds SET lifted = -719163 WHERE code = 'L'
opened after UPDATE holds SET lifted = -719162 WHERE code = 'L'
opened after INSERT INTO targets VALUES ('H', 'record', '3')
fault 33 after INSERT INTO targets VALUES ('H', 'folder', '3')
fault 33 after INSERT INTO targets VALUES ('H', 'record', '03')
fault 33 after INSERT INTO targets VALUES ('H', 'record', '+3')
fault 33 after INSERT INTO targets VALUES ('H', 'record', '3.0')
fault 33 after INSERT INTO targets VALUES ('H', 'record', '-3')
fault 33 after INSERT INTO targets VALUES ('H', 'record', '')
fault 33 after INSERT INTO targets VALUES ('H', 'record', 'r3')
fault 33 after INSERT INTO targets VALUES ('H', 'aggregation', '4294967297')
fault 33 after INSERT INTO targets VALUES ('H', 'class', 'F N')
fault 33 after UPDATE runs SET opened_by = '' WHERE num = 3
fault 33 after UPDATE runs SET day = -719163 WHERE num = 3
fault 33 after UPDATE runs SET place = -1 WHERE num = 3; DELETE FROM entries WHERE run = 3
opened after UPDATE runs SET place = 4294967295 WHERE num = 3
fault 33 after UPDATE runs SET place = 4294967296 WHERE num = 3
fault 33 after UPDATE runs SET closed = 2 WHERE num = 3
fault 33 after UPDATE runs SET closed = -1 WHERE num = 3
fault 33 after UPDATE entries SET outcome = 'lost' WHERE run = 1 AND record = 4
fault 33 after UPDATE entries SET class = '' WHERE run = 1 AND record = 4
fault 33 after UPDATE entries SET schedule = '' WHERE run = 1 AND record = 4
opened after UPDATE entries SET due = 559155 WHERE run = 1 AND record = 4
fault 33 after UPDATE entries SET due = 559156 WHERE run = 1 AND record = 4
fault 33 after UPDATE entries SET due = -719163 WHERE run = 1 AND record = 4
fault 33 after UPDATE entries SET confirmed_by = '' WHERE run = 1 AND record = 4
fault 33 after UPDATE entries SET hold = '' WHERE run = 1 AND record = 2

# A parent has a lower number than its child, and a depth of 9 is too deep
## at the desk of the busy office
## tried on the tables
opened after UPDATE aggregations SET parent = 2 WHERE num = 3
fault 33 after UPDATE aggregations SET parent = 3 WHERE num = 3
fault 33 after UPDATE aggregations SET parent = 3 WHERE num = 2
fault 33 after UPDATE aggregations SET parent = 5 WHERE num = 3
fault 33 after UPDATE aggregations SET parent = 0 WHERE num = 3
fault 33 after UPDATE aggregations SET parent = -1 WHERE num = 3
fault 33 after UPDATE aggregations SET parent = 4294967297 WHERE num = 3
opened after INSERT INTO aggregations VALUES (5, 'E', 'E', 3, NULL, NULL), (6, 'F', 'F', 5, NULL, NULL), (7, 'G', 'G', 6, NULL, NULL), (8, 'I', 'I', 7, NULL, NULL), (9, 'J', 'J', 8, NULL, NULL), (10, 'K', 'K', 9, NULL, NULL)
fault 33 after INSERT INTO aggregations VALUES (5, 'E', 'E', 3, NULL, NULL), (6, 'F', 'F', 5, NULL, NULL), (7, 'G', 'G', 6, NULL, NULL), (8, 'I', 'I', 7, NULL, NULL), (9, 'J', 'J', 8, NULL, NULL), (10, 'K', 'K', 9, NULL, NULL), (11, 'M', 'M', 10, NULL, NULL)

# A schedule, a class or an aggregation that is named is there, and a root has a class
## at the desk of the busy office
## tried on the tables
fault 33 after UPDATE classes SET schedule = 'NON' WHERE code = 'LEG'
fault 33 after DELETE FROM schedules2 WHERE code = 'V'
fault 33 after DELETE FROM schedules2 WHERE code = 'D1'
fault 33 after DELETE FROM classes WHERE code = 'FIN'
fault 33 after UPDATE aggregations SET class = 'NON' WHERE num = 2
fault 33 after UPDATE aggregations SET class = 'NON' WHERE num = 4
opened after UPDATE aggregations SET class = 'LEG' WHERE num = 4
fault 33 after UPDATE aggregations SET class = NULL WHERE num = 2
fault 33 after UPDATE aggregations SET parent = NULL WHERE num = 3
opened after UPDATE aggregations SET parent = NULL, class = 'LEG' WHERE num = 3
opened after UPDATE records SET aggregation = 4 WHERE num = 3
fault 33 after UPDATE records SET aggregation = 5 WHERE num = 3
fault 33 after UPDATE records SET aggregation = 0 WHERE num = 3
fault 33 after UPDATE records SET aggregation = -1 WHERE num = 3
fault 33 after UPDATE records SET aggregation = 4294967297 WHERE num = 3
opened after UPDATE records SET class = 'LEG' WHERE num = 3
fault 33 after UPDATE records SET class = 'leg' WHERE num = 3
opened after UPDATE records SET schedule = 'V' WHERE num = 3
fault 33 after UPDATE records SET schedule = 'NON' WHERE num = 3

# What a target or an entry names is there
## at the desk of the busy office
## tried on the tables
opened after INSERT INTO targets VALUES ('L', 'class', 'FIN')
fault 33 after INSERT INTO targets VALUES ('L', 'class', 'NON')
opened after INSERT INTO targets VALUES ('L', 'aggregation', '3')
fault 33 after INSERT INTO targets VALUES ('L', 'aggregation', '5')
fault 33 after INSERT INTO targets VALUES ('L', 'aggregation', '0')
opened after INSERT INTO targets VALUES ('L', 'record', '1')
fault 33 after INSERT INTO targets VALUES ('L', 'record', '8')
fault 33 after INSERT INTO targets VALUES ('L', 'record', '0')
fault 33 after INSERT INTO targets VALUES ('NON', 'record', '3')
fault 33 after DELETE FROM holds WHERE code = 'L'
opened after DELETE FROM holds WHERE code = 'L'; DELETE FROM targets WHERE hold = 'L'
fault 33 after UPDATE entries SET class = 'NON' WHERE run = 1 AND record = 4
fault 33 after UPDATE entries SET schedule = 'NON' WHERE run = 1 AND record = 4
opened after UPDATE entries SET class = 'FIN', schedule = 'V' WHERE run = 1 AND record = 4
fault 33 after UPDATE entries SET hold = 'NON' WHERE run = 1 AND record = 2
opened after UPDATE entries SET hold = 'L' WHERE run = 1 AND record = 2
fault 33 after UPDATE entries SET run = 4 WHERE run = 3
fault 33 after UPDATE entries SET run = 0 WHERE run = 3
fault 33 after UPDATE entries SET run = -1 WHERE run = 3
fault 33 after UPDATE entries SET record = 0 WHERE run = 3
fault 33 after UPDATE entries SET record = -1 WHERE run = 3
opened after UPDATE runs SET place = 8 WHERE num = 3; UPDATE entries SET record = 7 WHERE run = 3
fault 33 after UPDATE runs SET place = 8 WHERE num = 3; UPDATE entries SET record = 8 WHERE run = 3

# No open aggregation has a closed parent
## at the desk of the busy office
## tried on the tables
opened after UPDATE aggregations SET closed = NULL WHERE num = 4
opened after UPDATE aggregations SET closed = 20000 WHERE num = 3
fault 33 after UPDATE aggregations SET closed = 20000 WHERE num = 1
opened after UPDATE aggregations SET closed = 20000 WHERE num = 1; UPDATE aggregations SET closed = 20000 WHERE num = 3
fault 33 after UPDATE aggregations SET closed = 20000 WHERE num = 3; UPDATE aggregations SET closed = NULL WHERE num = 4
fault 33 after INSERT INTO aggregations VALUES (5, 'E', 'E', 4, NULL, NULL)
opened after INSERT INTO aggregations VALUES (5, 'E', 'E', 4, NULL, 20000)

# Contents are there for exactly the records that are not ended
## at the desk of the busy office
## tried on the tables
fault 33 after DELETE FROM contents WHERE record = 2
fault 33 after DELETE FROM contents WHERE record = 4
fault 33 after DELETE FROM contents WHERE record = 5
fault 33 after DELETE FROM contents WHERE record = 7
fault 33 after DELETE FROM contents
fault 33 after INSERT INTO contents VALUES (1, x'616263')
fault 33 after INSERT INTO contents VALUES (6, x'61626364')
fault 33 after INSERT INTO contents VALUES (8, x'')
fault 33 after INSERT INTO contents VALUES (0, x'')
fault 33 after INSERT INTO contents VALUES (-1, x'')
fault 33 after INSERT INTO contents VALUES (4294967298, x'')
fault 33 after UPDATE contents SET record = 8 WHERE record = 7
opened after UPDATE contents SET bytes = x'00' WHERE record = 7

# A confirmation is whole, names transfer or destruction, and is there for every record that is not here
## at the desk of the busy office
## tried on the tables
fault 33 after UPDATE records SET conf_action = 'destroy' WHERE num = 3
fault 33 after UPDATE records SET conf_due = 20090 WHERE num = 3
fault 33 after UPDATE records SET conf_day = 20090 WHERE num = 3
fault 33 after UPDATE records SET conf_by = 'registrar' WHERE num = 3
opened after UPDATE records SET conf_action = 'destroy', conf_due = 20090, conf_day = 20090, conf_by = 'registrar' WHERE num = 3
fault 33 after UPDATE records SET conf_action = NULL WHERE num = 2
fault 33 after UPDATE records SET conf_due = NULL WHERE num = 2
fault 33 after UPDATE records SET conf_day = NULL WHERE num = 2
fault 33 after UPDATE records SET conf_by = NULL WHERE num = 2
opened after UPDATE records SET conf_action = NULL, conf_due = NULL, conf_day = NULL, conf_by = NULL WHERE num = 2
opened after UPDATE records SET conf_action = 'transfer' WHERE num = 2
fault 33 after UPDATE records SET conf_action = 'keep' WHERE num = 2
fault 33 after UPDATE records SET conf_action = 'review' WHERE num = 2
fault 33 after UPDATE records SET conf_action = 'keep' WHERE num = 1
fault 33 after UPDATE records SET conf_action = NULL, conf_due = NULL, conf_day = NULL, conf_by = NULL WHERE num = 1
fault 33 after UPDATE records SET conf_action = NULL, conf_due = NULL, conf_day = NULL, conf_by = NULL WHERE num = 4
fault 33 after UPDATE records SET conf_action = NULL, conf_due = NULL, conf_day = NULL, conf_by = NULL WHERE num = 5
opened after UPDATE records SET status = 'sent' WHERE num = 2
fault 33 after UPDATE records SET status = 'sent' WHERE num = 3

# A review and a receipt are whole, and a received or transferred record has a receipt
## at the desk of the busy office
## tried on the tables
fault 33 after UPDATE records SET reviewed = NULL WHERE num = 7
fault 33 after UPDATE records SET reviewed_by = NULL WHERE num = 7
opened after UPDATE records SET reviewed = NULL, reviewed_by = NULL WHERE num = 7
fault 33 after UPDATE records SET reviewed = 20090 WHERE num = 3
fault 33 after UPDATE records SET reviewed_by = 'registrar' WHERE num = 3
opened after UPDATE records SET reviewed = 20090, reviewed_by = 'registrar' WHERE num = 3
fault 33 after UPDATE records SET receipt_day = 20090 WHERE num = 4
fault 33 after UPDATE records SET receipt_by = 'registrar' WHERE num = 4
opened after UPDATE records SET receipt_day = 20090, receipt_by = 'registrar' WHERE num = 4
fault 33 after UPDATE records SET receipt_day = NULL WHERE num = 5
fault 33 after UPDATE records SET receipt_by = NULL WHERE num = 5
fault 33 after UPDATE records SET receipt_day = NULL, receipt_by = NULL WHERE num = 5
fault 33 after UPDATE records SET receipt_day = NULL, receipt_by = NULL WHERE num = 6
fault 33 after UPDATE records SET status = 'received' WHERE num = 4
opened after UPDATE records SET status = 'received', receipt_day = 20090, receipt_by = 'registrar' WHERE num = 4
fault 33 after UPDATE entries SET outcome = 'transferred' WHERE run = 1 AND record = 1
opened after UPDATE entries SET outcome = 'transferred' WHERE run = 1 AND record = 1; UPDATE records SET receipt_day = 20090, receipt_by = 'registrar' WHERE num = 1
opened after UPDATE entries SET outcome = 'destroyed' WHERE run = 2 AND record = 6; UPDATE records SET receipt_day = NULL, receipt_by = NULL WHERE num = 6

# An ended record has exactly one entry that ended it, and no other record has one
## at the desk of the busy office
## tried on the tables
fault 33 after DELETE FROM entries WHERE run = 1 AND record = 1
fault 33 after DELETE FROM entries WHERE run = 2 AND record = 6
opened after DELETE FROM entries WHERE run = 1 AND record = 6
fault 33 after UPDATE entries SET outcome = 'sent' WHERE run = 1 AND record = 1
fault 33 after INSERT INTO entries VALUES (2, 1, 'destroyed', 'FIN', 'D1', 20090, 'registrar', NULL)
fault 33 after UPDATE entries SET outcome = 'destroyed' WHERE run = 1 AND record = 6
opened after INSERT INTO entries VALUES (2, 1, 'sent', 'FIN', 'D1', 20090, 'registrar', NULL)
opened after INSERT INTO entries VALUES (1, 3, 'sent', 'FIN', 'D1', 20090, 'registrar', NULL)
fault 33 after INSERT INTO entries VALUES (1, 3, 'destroyed', 'FIN', 'D1', 20090, 'registrar', NULL)
fault 33 after UPDATE entries SET outcome = 'destroyed' WHERE run = 1 AND record = 4
fault 33 after UPDATE records SET status = 'here' WHERE num = 1; INSERT INTO contents VALUES (1, x'616263')
opened after UPDATE records SET status = 'here' WHERE num = 1; INSERT INTO contents VALUES (1, x'616263'); DELETE FROM entries WHERE run = 1 AND record = 1
fault 33 after UPDATE records SET status = 'ended' WHERE num = 2; DELETE FROM contents WHERE record = 2
fault 33 after UPDATE records SET status = 'ended' WHERE num = 4; DELETE FROM contents WHERE record = 4
opened after UPDATE records SET status = 'ended' WHERE num = 4; DELETE FROM contents WHERE record = 4; UPDATE entries SET outcome = 'destroyed' WHERE run = 1 AND record = 4

# A hold is told exactly of what is skipped, and no entry is above the place of its run
## at the desk of the busy office
## tried on the tables
fault 33 after UPDATE entries SET hold = NULL WHERE run = 1 AND record = 2
fault 33 after UPDATE entries SET hold = 'H' WHERE run = 1 AND record = 1
fault 33 after UPDATE entries SET hold = 'H' WHERE run = 1 AND record = 4
fault 33 after UPDATE entries SET hold = 'H' WHERE run = 2 AND record = 6
fault 33 after UPDATE entries SET outcome = 'skipped' WHERE run = 1 AND record = 4
opened after UPDATE entries SET outcome = 'skipped', hold = 'H' WHERE run = 1 AND record = 4
fault 33 after UPDATE runs SET place = 5 WHERE num = 1
opened after UPDATE runs SET place = 7 WHERE num = 1
fault 33 after UPDATE runs SET place = 0 WHERE num = 2
fault 33 after UPDATE runs SET place = 1 WHERE num = 3
fault 33 after INSERT INTO entries VALUES (3, 3, 'sent', 'FIN', 'D1', 20090, 'registrar', NULL)
opened after INSERT INTO entries VALUES (3, 3, 'sent', 'FIN', 'D1', 20090, 'registrar', NULL); UPDATE runs SET place = 3 WHERE num = 3

# The last run alone may be open, and exactly the closed ones have certificates
## at the desk of the busy office
## tried on the tables
fault 33 after UPDATE runs SET closed = 0 WHERE num = 2; DELETE FROM certificates WHERE run = 2
fault 33 after UPDATE runs SET closed = 0 WHERE num = 1; DELETE FROM certificates WHERE run = 1; UPDATE runs SET closed = 1 WHERE num = 3; INSERT INTO certificates VALUES (3, 'x')
fault 33 after INSERT INTO runs VALUES (4, 20090, 'registrar', 0, 0)
fault 33 after INSERT INTO runs VALUES (4, 20090, 'registrar', 0, 1); INSERT INTO certificates VALUES (4, 'x')
fault 33 after UPDATE runs SET closed = 0 WHERE num = 2
fault 33 after DELETE FROM certificates WHERE run = 1
fault 33 after DELETE FROM certificates
fault 33 after UPDATE runs SET closed = 1 WHERE num = 3
opened after UPDATE runs SET closed = 1 WHERE num = 3; INSERT INTO certificates VALUES (3, 'x')
fault 33 after INSERT INTO certificates VALUES (3, 'x')
fault 33 after INSERT INTO certificates VALUES (4, 'x')
fault 33 after INSERT INTO certificates VALUES (0, 'x')
fault 33 after INSERT INTO certificates VALUES (-1, 'x')
fault 33 after UPDATE certificates SET run = 3 WHERE run = 2
opened after UPDATE certificates SET body = '' WHERE run = 2

# No day of an act is after the office's day
## at the desk of the busy office
## tried on the tables
fault 33 after UPDATE office SET day = 20089
fault 33 after UPDATE aggregations SET closed = 20091 WHERE num = 4
opened after UPDATE aggregations SET closed = 20090 WHERE num = 4
fault 33 after UPDATE records SET added = 20091 WHERE num = 3
opened after UPDATE records SET added = 20090 WHERE num = 3
fault 33 after UPDATE records SET added = 20091 WHERE num = 1
fault 33 after UPDATE records SET reviewed = 20091 WHERE num = 7
opened after UPDATE records SET reviewed = 20090 WHERE num = 7
fault 33 after UPDATE records SET conf_day = 20091 WHERE num = 2
opened after UPDATE records SET conf_due = 20091 WHERE num = 2
fault 33 after UPDATE records SET receipt_day = 20091 WHERE num = 5
fault 33 after UPDATE records SET receipt_day = 20091 WHERE num = 6
fault 33 after UPDATE holds SET placed = 20091 WHERE code = 'H'
opened after UPDATE holds SET placed = 20090 WHERE code = 'H'
fault 33 after UPDATE holds SET lifted = 20091 WHERE code = 'L'
opened after UPDATE holds SET lifted = 20090 WHERE code = 'H'
fault 33 after UPDATE runs SET day = 20091 WHERE num = 3
fault 33 after UPDATE runs SET day = 20091 WHERE num = 1
opened after UPDATE entries SET due = 20091 WHERE run = 1 AND record = 4

# There are no more than 1000 schedules, classes, holds and targets of one hold
## at the desk of the busy office
## tried on the tables
opened after INSERT INTO schedules2 SELECT 'X' || a.num || b.num || c.num || d.num, 'added', 'days', 1, 'none', 'keep' FROM records a, records b, records c, records d LIMIT 997
fault 33 after INSERT INTO schedules2 SELECT 'X' || a.num || b.num || c.num || d.num, 'added', 'days', 1, 'none', 'keep' FROM records a, records b, records c, records d LIMIT 998
opened after INSERT INTO classes SELECT 'X' || a.num || b.num || c.num || d.num, 'X', 'D1' FROM records a, records b, records c, records d LIMIT 998
fault 33 after INSERT INTO classes SELECT 'X' || a.num || b.num || c.num || d.num, 'X', 'D1' FROM records a, records b, records c, records d LIMIT 999
opened after INSERT INTO holds SELECT 'X' || a.num || b.num || c.num || d.num, 'court', 20000, 'registrar', NULL FROM records a, records b, records c, records d LIMIT 998
fault 33 after INSERT INTO holds SELECT 'X' || a.num || b.num || c.num || d.num, 'court', 20000, 'registrar', NULL FROM records a, records b, records c, records d LIMIT 999
opened after INSERT INTO classes SELECT 'X' || a.num || b.num || c.num || d.num, 'X', 'D1' FROM records a, records b, records c, records d LIMIT 995; INSERT INTO targets SELECT 'H', 'class', code FROM classes
fault 33 after INSERT INTO classes SELECT 'X' || a.num || b.num || c.num || d.num, 'X', 'D1' FROM records a, records b, records c, records d LIMIT 996; INSERT INTO targets SELECT 'H', 'class', code FROM classes
"#;
