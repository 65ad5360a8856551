//! The program's words over one office.

pub(crate) const PROGRAM: &str = r#"
# An office is made and opened again
## by the program
init = 0;version 2\n;
init = 0;version 2\n;

# Tables of another version
## by the program
init = 0;version 2\n;
## in the tables
UPDATE office SET version = 9
## by the program
init = 3;;office: fault 34\n

# Tables of no state
## by the program
init = 0;version 2\n;
## in the tables
INSERT INTO runs VALUES (1, 0, 'registrar', 1, 0)
## by the program
init = 3;;office: fault 33\n

# Tables without the row of the office
## by the program
init = 0;version 2\n;
## in the tables
DELETE FROM office
## by the program
init = 3;;office: fault 33\n

# Tables of which one is missing
## by the program
init = 0;version 2\n;
## in the tables
DROP TABLE office
## by the program
init = 3;;office: fault 33\n

# A new office has no run
## by the program
resume = 1;;office: refused 18\n
init = 0;version 2\n;

# A new office has no certificate
## by the program
certificate 1 = 1;;office: refused 5\n
init = 0;version 2\n;

# An open run is resumed once
## at the desk
2025-01-02 open-run = number 1
## by the program
certificate 1 = 1;;office: refused 5\n
resume = 0;certificate 1\n;
certificate 1 = 0;CERTIFICATE 1\nDAY 2025-01-02\nBY registrar\nENDED 0\nSENT 0\nSKIPPED 0\nSPENT 0\nSHA256 045ce16f4fb05c273a45025e528fc936c6f459e0efd3c4ac5938925881b5a62a\n;
resume = 1;;office: refused 18\n
## at the desk
2025-01-02 open-run = number 2
## by the program
resume = 0;certificate 2\n;
certificate 1 = 0;CERTIFICATE 1\nDAY 2025-01-02\nBY registrar\nENDED 0\nSENT 0\nSKIPPED 0\nSPENT 0\nSHA256 045ce16f4fb05c273a45025e528fc936c6f459e0efd3c4ac5938925881b5a62a\n;
certificate 3 = 1;;office: refused 5\n

# Acts are done once
## by the program
apply [{"act":"add-schedule","day":"2024-01-02","code":"D1","trigger":"added","unit":"years","count":1,"offset":"none","action":"destroy"},\n{"act":"add-class","day":"2024-01-02","code":"FIN","title":"Finance","schedule":"D1"},\n{"act":"add-aggregation","day":"2024-01-02","ref":"A","title":"A","class":"FIN"},\n{"act":"add-record","day":"2024-01-02","ref":"r1","title":"r1","originated":"2024-01-02","aggregation":1,"content":"YWJj"},\n{"act":"run-step"}]\n = 1;{"done":true}\n{"done":true}\n{"number":1}\n{"number":1}\n{"refused":18}\n;
apply [{"act":"add-schedule","day":"2024-01-02","code":"D1","trigger":"added","unit":"years","count":1,"offset":"none","action":"destroy"},\n{"act":"add-class","day":"2024-01-02","code":"FIN","title":"Finance","schedule":"D1"},\n{"act":"add-aggregation","day":"2024-01-02","ref":"A","title":"A","class":"FIN"},\n{"act":"add-record","day":"2024-01-02","ref":"r1","title":"r1","originated":"2024-01-02","aggregation":1,"content":"YWJj"},\n{"act":"run-step"}]\n = 1;{"refused":4}\n{"refused":4}\n{"refused":4}\n{"number":1,"same":true}\n{"refused":18}\n;
apply [{"act":"open-run","day":"2024-01-03","by":"registrar"}] = 0;{"number":1}\n;
apply [] = 0;;

# What is no list of acts does nothing
## by the program
apply  = 1;;office: json\n
apply {} = 1;;office: json\n
apply [{"act":"open-run","day":"2024-01-03","by":"registrar"},{"act":"run-step","day":"2024-01-03"}] = 1;;office: act 1 refused 2\n
apply [{"act":"close-aggregation","day":"2024-01-03","aggregation":0}] = 1;;office: act 0 refused 3\n
certificate 1 = 1;;office: refused 5\n

# Records are imported, and imported again
## at the desk of the base office
## by the program
import 2024-01-02 ref,title,originated,aggregation,class,schedule,content\nr4,"Lease, 2023",2023-05-01,1,,,YWJj\nr5,x,2023-13-01,1,,,\nr6,x,2023-05-01,9,,,\n = 1;1 number 4\n2 refused 2\n3 refused 5\n;
import 2024-01-02 ref,title,originated,aggregation,class,schedule,content\nr4,"Lease, 2023",2023-05-01,1,,,YWJj\nr5,x,2023-13-01,1,,,\nr6,x,2023-05-01,9,,,\n = 1;1 same 4\n2 refused 2\n3 refused 5\n;
import 2024-01-03 ref,title,originated,aggregation,class,schedule,content\nr6,"The ""new"" lease",2023-05-01,2,FIN,D1, = 0;1 number 5\n;
import 2024-01-02 ref,title,originated,aggregation,class,schedule,content\nr7,x,2023-05-01,1,,,\n = 1;1 refused 1\n;
import 2024-01-03 ref,title,originated,aggregation,class,schedule,content\n = 0;;
## at the desk
record 4 has "title":"Lease, 2023"
content 4 is "abc"
record 5 has "class":"FIN"
record 5 has "title":"The \"new\" lease"

# Spreadsheets write a byte order mark, quotes and two bytes at the end of a line
## at the desk of the base office
## by the program
import 2024-01-02 \ufeff"ref","title","originated","aggregation","class","schedule","content"\r\n"r4","x","2023-05-01","1","","",""\r\n = 0;1 number 4\n;
import 2024-01-02 "\ufeffref",title,originated,aggregation,class,schedule,content\r\nr4,x,2023-05-01,1,,,\r\n\r\nr5,x,2023-05-01,2,,, = 0;1 same 4\n2 number 5\n;

# An import is refused row by row, 2 before 3
## at the desk of the base office
## by the program
import 2024-01-02 ref,title,originated,aggregation,class,schedule,content\nr4,x,2023-05-01,0,,,\n,x,2023-05-01,0,,,\nr4,x,2023-05-01,one,,,\nr4,x,2023-05-01,1,F F,,\nr4,x,2023-05-01,1,,,YWJ\nr4,"two\nlines",2023-05-01,1,,,\nr1,y,2023-05-01,1,,,\nr4,x,2023-05-01,00001,,, = 1;1 refused 3\n2 refused 2\n3 refused 2\n4 refused 2\n5 refused 2\n6 refused 2\n7 refused 4\n8 number 4\n;

# What is no import stops where it is none
## at the desk of the base office
## by the program
import 2024-01-02  = 1;;office: csv header\n
import 2024-01-02 ref,title = 1;;office: csv header\n
import 2024-01-02 title,ref,originated,aggregation,class,schedule,content\nx,r4,2023-05-01,1,,, = 1;;office: csv header\n
import 2024-01-02 ref,title,originated,aggregation,class,schedule,content\nr4,x,2023-05-01,1,,,\nr5,x,2023-05-01,1,,\nr6,x,2023-05-01,1,,,\n = 1;1 number 4\n;office: csv row 2\n
import 2024-01-02 ref,title,originated,aggregation,class,schedule,content\nr4,x,2023-05-01,1,,,\nr5,x,2023-05-01,1,,,,\n = 1;1 same 4\n;office: csv row 2\n
import 2024-01-02 ref,title,originated,aggregation,class,schedule,content\nr4,x,2023-05-01,1,,,\nr5,x\xff,2023-05-01,1,,,\n = 1;1 same 4\n;office: csv row 2\n
## at the desk
record 5 is none

# A new office has registers without rows
## by the program
export 2025-01-02 = 0;record,ref,class,schedule,action,due,held,confirmed\n;
export entries = 0;run,record,ref,outcome,class,schedule,due,hold,confirmed_by,length,digest\n;

# Registers tell what is due and what was done
## at the desk of the base office
2025-01-01 confirm 1 destroy = refused 15
2025-01-02 confirm 1 transfer = refused 16
2025-01-02 confirm 1 destroy = done
2025-01-01 open-run = refused 1
## by the program
export 2025-01-01 = 0;record,ref,class,schedule,action,due,held,confirmed\n;
export 2025-01-02 = 0;record,ref,class,schedule,action,due,held,confirmed\n1,r1,FIN,D1,destroy,2025-01-02,,yes\n2,r2,LEG,D1,destroy,2025-01-02,,no\n3,r3,FIN,D1,destroy,2025-01-02,,no\n;
export entries = 0;run,record,ref,outcome,class,schedule,due,hold,confirmed_by,length,digest\n;
## at the desk
2025-01-02 place-hold H-9 = done
2025-01-02 hold-on H-9 class LEG = done
2025-01-02 place-hold H-2 = done
2025-01-02 hold-on H-2 record 2 = done
2025-01-02 confirm 2 destroy = done
2025-01-02 confirm 3 destroy = done
2025-01-02 open-run = number 1
2025-01-02 run-step = step 1 destroyed
2025-01-02 run-step = step 2 skipped
## by the program
export 2025-01-02 = 0;record,ref,class,schedule,action,due,held,confirmed\n2,r2,LEG,D1,destroy,2025-01-02,H-2,yes\n3,r3,FIN,D1,destroy,2025-01-02,,yes\n;
export entries = 0;run,record,ref,outcome,class,schedule,due,hold,confirmed_by,length,digest\n1,1,r1,destroyed,FIN,D1,2025-01-02,,registrar,3,ba7816bf8f01cfea414140de5dae2223b00361a396177a9cb410ff61f20015ad\n1,2,r2,skipped,LEG,D1,2025-01-02,H-2,registrar,0,e3b0c44298fc1c149afbf4c8996fb92427ae41e4649b934ca495991b7852b855\n;
resume = 0;certificate 1\n;
export entries = 0;run,record,ref,outcome,class,schedule,due,hold,confirmed_by,length,digest\n1,1,r1,destroyed,FIN,D1,2025-01-02,,registrar,3,ba7816bf8f01cfea414140de5dae2223b00361a396177a9cb410ff61f20015ad\n1,2,r2,skipped,LEG,D1,2025-01-02,H-2,registrar,0,e3b0c44298fc1c149afbf4c8996fb92427ae41e4649b934ca495991b7852b855\n1,3,r3,destroyed,FIN,D1,2025-01-02,,registrar,3,ba7816bf8f01cfea414140de5dae2223b00361a396177a9cb410ff61f20015ad\n;
init = 0;version 2\n;

# Registers are in the order of the days, and put in quotes what needs it
## at the desk of the base office
2024-01-02 add-schedule D3 added days 3 review = done
## by the program
import 2024-01-02 ref,title,originated,aggregation,class,schedule,content\n"a, ""b""",x,2023-05-01,1,,,\n"two\twords",x,2023-05-01,1,,,\nr6,x,2023-05-01,2,,D3,\n = 1;1 number 4\n2 refused 2\n3 number 5\n;
export 2024-01-04 = 0;record,ref,class,schedule,action,due,held,confirmed\n;
export 2024-01-05 = 0;record,ref,class,schedule,action,due,held,confirmed\n5,r6,LEG,D3,review,2024-01-05,,no\n;
export 2999-12-31 = 0;record,ref,class,schedule,action,due,held,confirmed\n5,r6,LEG,D3,review,2024-01-05,,no\n1,r1,FIN,D1,destroy,2025-01-02,,no\n2,r2,LEG,D1,destroy,2025-01-02,,no\n3,r3,FIN,D1,destroy,2025-01-02,,no\n4,"a, ""b""",FIN,D1,destroy,2025-01-02,,no\n;
"#;

/// The program whose text or whose output fails at each byte in turn.
pub(crate) const LOST_LINES: &str = r#"
# An import whose text fails keeps its rows, and goes on where it stopped for each <n> of 0 to 101
## at the desk of the base office
## by the program
import 2024-01-02 ref,title,originated,aggregation,class,schedule,content\nr4,x,2023-05-01,1,,,YWJj\nr5,x,2023-05-01,2,,,\n = 3;*;office: file\n while read up to <n>
import 2024-01-02 ref,title,originated,aggregation,class,schedule,content\nr4,x,2023-05-01,1,,,YWJj\nr5,x,2023-05-01,2,,,\n = 0;*;
import 2024-01-02 ref,title,originated,aggregation,class,schedule,content\nr4,x,2023-05-01,1,,,YWJj\nr5,x,2023-05-01,2,,,\n = 0;1 same 4\n2 same 5\n;

# An import whose lines are lost keeps its rows for each <n> of 0 to 21
## at the desk of the base office
## by the program
import 2024-01-02 ref,title,originated,aggregation,class,schedule,content\nr4,x,2023-05-01,1,,,YWJj\nr5,x,2023-05-01,2,,,\n = 3;1 number 4\n2 number 5\n;office: file\n while written up to <n>
import 2024-01-02 ref,title,originated,aggregation,class,schedule,content\nr4,x,2023-05-01,1,,,YWJj\nr5,x,2023-05-01,2,,,\n = 0;*;
import 2024-01-02 ref,title,originated,aggregation,class,schedule,content\nr4,x,2023-05-01,1,,,YWJj\nr5,x,2023-05-01,2,,,\n = 0;1 same 4\n2 same 5\n;

# A due register that is lost leaves the office as it was for each <n> of 0 to 156
## at the desk of the base office
## by the program
export 2025-01-02 = 3;record,ref,class,schedule,action,due,held,confirmed\n1,r1,FIN,D1,destroy,2025-01-02,,no\n2,r2,LEG,D1,destroy,2025-01-02,,no\n3,r3,FIN,D1,destroy,2025-01-02,,no\n;office: file\n while written up to <n>
export 2025-01-02 = 0;record,ref,class,schedule,action,due,held,confirmed\n1,r1,FIN,D1,destroy,2025-01-02,,no\n2,r2,LEG,D1,destroy,2025-01-02,,no\n3,r3,FIN,D1,destroy,2025-01-02,,no\n;

# A register of entries that is lost leaves the office as it was for each <n> of 0 to 186
## at the desk of the base office
2025-01-02 confirm 1 destroy = done
2025-01-02 open-run = number 1
2025-01-02 run-step = step 1 destroyed
## by the program
export entries = 3;run,record,ref,outcome,class,schedule,due,hold,confirmed_by,length,digest\n1,1,r1,destroyed,FIN,D1,2025-01-02,,registrar,3,ba7816bf8f01cfea414140de5dae2223b00361a396177a9cb410ff61f20015ad\n;office: file\n while written up to <n>
export entries = 0;run,record,ref,outcome,class,schedule,due,hold,confirmed_by,length,digest\n1,1,r1,destroyed,FIN,D1,2025-01-02,,registrar,3,ba7816bf8f01cfea414140de5dae2223b00361a396177a9cb410ff61f20015ad\n;

# Acts whose text is lost are not done for each <n> of 0 to 55
## at the desk of the base office
## by the program
apply [{"act":"open-run","day":"2025-01-02","by":"registrar"}] = 3;;office: file\n while read up to <n>
apply [{"act":"open-run","day":"2025-01-02","by":"registrar"}] = 0;{"number":1}\n;
resume = 3;certificate 1\n;office: file\n while written up to 5
resume = 1;;office: refused 18\n
"#;
