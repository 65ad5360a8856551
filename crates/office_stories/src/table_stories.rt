//! What is saved is found again, and tables that represent no office are reported.

pub(crate) const TABLES: &str = r#"
# Each kind of change is saved and found
## at the desk of the base office
2024-01-03 add-schedule D2 origin years 2 transfer = done
2024-01-03 add-schedule R1 added days 1 review = done
2024-01-03 set-class-schedule LEG D2 = done
2024-01-03 add-child C 1 - = number 3
2024-01-03 add-record r4 3 abcd = number 4
2024-01-03 close-aggregation 3 = done
2024-01-03 set-record-schedule 3 D1 = done
2024-01-03 set-record-schedule 2 R1 = done
2024-01-03 review 2 D1 = done
2024-01-03 reclassify aggregation 2 FIN = done
2024-01-03 reclassify record 2 FIN = done
2024-01-03 place-hold H = done
2024-01-03 hold-on H record 3 = done
2024-01-03 hold-on H class LEG = done
2024-01-03 hold-off H class LEG = done
2025-01-03 confirm 1 destroy = done
2025-01-03 confirm 3 destroy = done
2025-01-03 open-run = number 1
2025-01-03 run-step = step 1 destroyed
2025-01-03 run-step = step 3 skipped
2025-01-03 run-step = closed 1
2025-01-03 lift-hold H = done
## counts of the tables
[3, 2, 3, 4, 0, 3, 1, 1, 1, 2, 1]
## taken over by memory
with 22 rows

# An office of 20,000 records is opened as one of three
## at the desk of the base office
## in the tables
INSERT INTO records(num, ref, title, originated, added, aggregation, size, digest, status) WITH RECURSIVE n(i) AS (SELECT 4 UNION ALL SELECT i + 1 FROM n WHERE i < 20000) SELECT i, 'r' || i, 'x', 19724, 19724, 1, 3, 'ba7816bf8f01cfea414140de5dae2223b00361a396177a9cb410ff61f20015ad', 'here' FROM n
INSERT INTO contents WITH RECURSIVE n(i) AS (SELECT 4 UNION ALL SELECT i + 1 FROM n WHERE i < 20000) SELECT i, x'616263' FROM n
## counts of the tables
[1, 2, 2, 20000, 0, 20000, 0, 0, 0, 0, 0]
## at the desk
record 20000 has "due":"2025-01-02"
content 20000 is "abc"
2025-01-02 confirm 20000 destroy = done
2025-01-02 open-run = number 1
2025-01-02 run-step = step 20000 destroyed

# Tables of another version, of no form, or that stand for no office are told
## at the desk of the base office
## tried on the tables
opened after UPDATE office SET day = 20000
fault 34 after UPDATE office SET version = 9
fault 33 after INSERT INTO office VALUES (2, 1, 20000)
fault 33 after UPDATE records SET status = 'gone' WHERE num = 1
fault 33 after UPDATE classes SET title = ''
fault 33 after UPDATE aggregations SET closed = 400000
fault 33 after DELETE FROM contents WHERE record = 2
fault 33 after DELETE FROM classes WHERE code = 'LEG'
fault 33 after UPDATE office SET day = 0

# A table that another program keeps in the file stays as it is, and does the office no harm
## at the desk of the base office
## in the tables
CREATE TABLE notes(id INTEGER PRIMARY KEY, note TEXT); INSERT INTO notes VALUES (7, 'kept')
## at the desk
record 1 has "ref":"r1"
2024-01-03 place-hold H-9 = done
2024-01-03 lift-hold H-9 = done
## by the program
init = 0;version 2\n;
## tried on the tables
opened after DELETE FROM notes; INSERT INTO office SELECT id, 1, 20000 FROM notes WHERE note = 'kept'
fault 33 after INSERT INTO office SELECT id, 1, 20000 FROM notes WHERE note = 'kept'

# An open run stays open and goes on, and an ended record has no content
## at the desk of the base office
2025-01-02 confirm 1 destroy = done
2025-01-02 open-run = number 1
2025-01-02 run-step = step 1 destroyed
## tried on the tables
fault 33 after INSERT INTO contents VALUES (1, x'616263')
## at the desk
2025-01-02 open-run = refused 17
2025-01-02 run-step = closed 1
"#;
