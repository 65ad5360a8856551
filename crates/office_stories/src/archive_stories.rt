//! The whole story of the city archive: its acts and their answers, and both its certificates.
//! Its page is `examples/city_archive/README.md`, which has the same acts and answers as files.

pub(crate) const ARCHIVE: &str = r#"
# A city archive, from its schedule to its second disposal run
## at the desk
{"act":"add-schedule","day":"2018-03-05","code":"INV-10","trigger":"closed","unit":"years","count":10,"offset":"from-month-1","action":"destroy"} = {"done":true}
{"act":"add-schedule","day":"2018-03-05","code":"APP-6M","trigger":"added","unit":"months","count":6,"offset":"none","action":"destroy"} = {"done":true}
{"act":"add-schedule","day":"2018-03-05","code":"TAX-5","trigger":"closed","unit":"years","count":5,"offset":"from-month-1","action":"destroy"} = {"done":true}
{"act":"add-schedule","day":"2018-03-05","code":"KEEP","trigger":"added","unit":"days","count":0,"offset":"none","action":"keep"} = {"done":true}
{"act":"add-schedule","day":"2018-03-05","code":"BLD-30","trigger":"origin","unit":"years","count":30,"offset":"from-month-1","action":"transfer"} = {"done":true}
{"act":"add-schedule","day":"2018-03-05","code":"COR-3","trigger":"last-addition","unit":"years","count":3,"offset":"quarter","action":"destroy"} = {"done":true}
{"act":"add-schedule","day":"2018-03-05","code":"CAM-30","trigger":"added","unit":"days","count":30,"offset":"none","action":"destroy"} = {"done":true}
{"act":"add-schedule","day":"2018-03-05","code":"EVT-2","trigger":"closed","unit":"years","count":2,"offset":"month","action":"destroy"} = {"done":true}
{"act":"add-schedule","day":"2018-03-05","code":"REV-5","trigger":"closed","unit":"years","count":5,"offset":"none","action":"review"} = {"done":true}
{"act":"add-schedule","day":"2018-03-05","code":"PARK-26","trigger":"added","unit":"weeks","count":26,"offset":"none","action":"destroy"} = {"done":true}
{"act":"add-schedule","day":"2018-03-05","code":"CON-10","trigger":"event","unit":"years","count":10,"offset":"from-month-1","action":"destroy"} = {"done":true}
{"act":"add-class","day":"2018-03-05","code":"FIN-INV","title":"Invoices and receipts","schedule":"INV-10"} = {"done":true}
{"act":"add-class","day":"2018-03-05","code":"PER-APP","title":"Applications without employment","schedule":"APP-6M"} = {"done":true}
{"act":"add-class","day":"2018-03-05","code":"TAX-DOG","title":"Dog tax","schedule":"TAX-5"} = {"done":true}
{"act":"add-class","day":"2018-03-05","code":"COU-MIN","title":"Minutes of the city council","schedule":"KEEP"} = {"done":true}
{"act":"add-class","day":"2018-03-05","code":"BLD-PER","title":"Building permits","schedule":"BLD-30"} = {"done":true}
{"act":"add-class","day":"2018-03-05","code":"GEN-COR","title":"General correspondence","schedule":"COR-3"} = {"done":true}
{"act":"add-class","day":"2018-03-05","code":"SEC-CAM","title":"Camera extracts","schedule":"CAM-30"} = {"done":true}
{"act":"add-class","day":"2018-03-05","code":"EVT-PER","title":"Permits for events","schedule":"EVT-2"} = {"done":true}
{"act":"add-class","day":"2018-03-05","code":"LEG-CON","title":"Contracts","schedule":"REV-5"} = {"done":true}
{"act":"add-class","day":"2018-03-05","code":"TRA-PARK","title":"Parking notices","schedule":"PARK-26"} = {"done":true}
## at the desk
{"act":"add-class","day":"2018-03-05","code":"LEG-TERM","title":"Contracts for a term","schedule":"CON-10"} = {"done":true}
{"act":"add-aggregation","day":"2018-03-06","ref":"EVT","title":"Events in public places","class":"EVT-PER"} = {"number":1}
{"act":"add-aggregation","day":"2018-03-06","ref":"EVT/2018-01","title":"River fair 2018","parent":1} = {"number":2}
{"act":"add-aggregation","day":"2018-03-06","ref":"EVT/2018-02","title":"Lantern walk 2018","parent":1} = {"number":3}
{"act":"add-aggregation","day":"2018-03-06","ref":"APP","title":"Applications","class":"PER-APP"} = {"number":4}
{"act":"add-aggregation","day":"2018-03-06","ref":"COR","title":"Correspondence of the mayor","class":"GEN-COR"} = {"number":5}
{"act":"add-aggregation","day":"2018-03-06","ref":"DOG/2018","title":"Dog tax 2018","class":"TAX-DOG"} = {"number":6}
{"act":"add-aggregation","day":"2018-03-06","ref":"COU/2018","title":"City council 2018","class":"COU-MIN"} = {"number":7}
{"act":"add-aggregation","day":"2018-03-06","ref":"BLD","title":"Building permits","class":"BLD-PER"} = {"number":8}
{"act":"add-aggregation","day":"2018-03-06","ref":"INV/2018","title":"Invoices 2018","class":"FIN-INV"} = {"number":9}
{"act":"add-aggregation","day":"2018-03-06","ref":"CON","title":"Contracts","class":"LEG-CON"} = {"number":10}
{"act":"add-aggregation","day":"2018-03-06","ref":"PARK","title":"Parking","class":"TRA-PARK"} = {"number":11}
{"act":"add-aggregation","day":"2018-03-06","ref":"CAM","title":"Cameras of the town hall","class":"SEC-CAM"} = {"number":12}
{"act":"add-record","day":"2018-04-11","ref":"EVT/2018-01/1","title":"Application for the river fair","originated":"2018-04-11","aggregation":2,"content":"VGhlIEZlcnJ5bWVuIGFzayBmb3IgdGhlIHF1YXkgZnJvbSAyIHRvIDQgSnVuZS4K"} = {"number":1}
{"act":"add-record","day":"2018-04-25","ref":"EVT/2018-01/2","title":"Report of the fire brigade","originated":"2018-04-25","aggregation":2,"content":"VHdvIHdheXMgb3V0LCBlYWNoIGZvdXIgbWV0cmVzIHdpZGUuCg=="} = {"number":2}
{"act":"add-record","day":"2018-05-14","ref":"EVT/2018-01/3","title":"Permit for the river fair","originated":"2018-05-14","aggregation":2,"content":"R3JhbnRlZCwgd2l0aCBhIGd1YXJkIG9uIHRoZSBsYW5kaW5nIHN0YWdlLgo="} = {"number":3}
{"act":"add-record","day":"2018-05-16","ref":"COU/2018/05","title":"Minutes of May 2018","originated":"2018-05-16","aggregation":7,"content":"VGhlIGNvdW5jaWwgaGVhcmQgdGhlIHBsYW5zIGZvciB0aGUgcXVheS4K"} = {"number":4}
{"act":"add-record","day":"2018-06-20","ref":"EVT/2018-01/4","title":"Report of an accident at the landing stage","originated":"2018-06-20","aggregation":2,"content":"T25lIHZpc2l0b3IgZmVsbCBmcm9tIHRoZSBsYW5kaW5nIHN0YWdlIGF0IG5pbmUgaW4gdGhlIGV2ZW5pbmcuCg=="} = {"number":5}
{"act":"add-record","day":"2018-07-02","ref":"INV/2018/114","title":"Invoice of the guard","originated":"2018-07-02","aggregation":9,"content":"VGhyZWUgbmlnaHRzLCAxLDI2MC4K"} = {"number":6}
{"act":"add-record","day":"2018-07-09","ref":"INV/2018/121","title":"Invoice of the fence hire","originated":"2018-07-09","aggregation":9,"content":"RWlnaHR5IG1ldHJlcywgNjQwLgo="} = {"number":7}
{"act":"add-record","day":"2018-07-30","ref":"APP/18-07","title":"Application of a gardener","originated":"2018-07-30","aggregation":4,"content":"V2l0aCB0d28gdGVzdGltb25pYWxzLgo="} = {"number":8}
{"act":"add-record","day":"2018-08-13","ref":"APP/18-09","title":"Application of an archivist","originated":"2018-08-13","aggregation":4,"content":"V2l0aCBhIGxpc3Qgb2YgcGFwZXJzLgo="} = {"number":9}
{"act":"add-record","day":"2018-09-03","ref":"DOG/2018/77","title":"Notice for the dog Bruno","originated":"2018-09-03","aggregation":6,"content":"NDggZm9yIHRoZSB5ZWFyLgo="} = {"number":10}
{"act":"add-record","day":"2018-09-03","ref":"DOG/2018/78","title":"Notice for the dog Mira","originated":"2018-09-03","aggregation":6,"content":"NDggZm9yIHRoZSB5ZWFyLgo="} = {"number":11}
{"act":"add-record","day":"2018-10-01","ref":"EVT/2018-02/1","title":"Application for the lantern walk","originated":"2018-10-01","aggregation":3,"content":"VGhlIHNjaG9vbHMgYXNrIGZvciB0aGUgb2xkIHdhbGwgb24gMTEgTm92ZW1iZXIuCg=="} = {"number":12}
{"act":"add-record","day":"2018-10-15","ref":"EVT/2018-02/2","title":"Permit for the lantern walk","originated":"2018-10-15","aggregation":3,"content":"R3JhbnRlZCwgd2l0aG91dCBvcGVuIGZpcmUuCg=="} = {"number":13}
{"act":"add-record","day":"2018-10-17","ref":"COU/2018/10","title":"Minutes of October 2018","originated":"2018-10-17","aggregation":7,"content":"VGhlIGNvdW5jaWwgdm90ZWQgb24gdGhlIGxhbmRpbmcgc3RhZ2UuCg=="} = {"number":14}
{"act":"add-record","day":"2018-11-05","ref":"COR/1","title":"Letter of the Ferrymen","originated":"2018-11-05","aggregation":5,"content":"VGhhbmtzIGZvciB0aGUgZmFpci4K"} = {"number":15}
{"act":"add-record","day":"2018-11-26","ref":"COR/2","title":"Letter on the landing stage","originated":"2018-11-26","aggregation":5,"content":"QSB2aXNpdG9yIGFza3Mgd2hvIGtlZXBzIGl0IGluIG9yZGVyLgo="} = {"number":16}
{"act":"add-record","day":"2018-12-03","ref":"PARK/1","title":"Notice in Mill Lane","originated":"2018-12-03","aggregation":11,"content":"QSBncmV5IGNhciwgZm9ydHkgbWludXRlcy4K"} = {"number":17}
{"act":"add-record","day":"2018-12-03","ref":"PARK/2","title":"Notice at the market","originated":"2018-12-03","aggregation":11,"content":"QSByZWQgdmFuLCB0d28gaG91cnMuCg=="} = {"number":18}
{"act":"add-record","day":"2018-12-10","ref":"BLD/1","title":"Permit for a boathouse","originated":"1988-05-30","aggregation":8,"content":"V29vZCBvbiBzdG9uZSwgb25lIGZsb29yLgo="} = {"number":19}
{"act":"add-record","day":"2018-12-10","ref":"BLD/2","title":"Permit for a workshop","originated":"1997-09-15","aggregation":8,"content":"QnJpY2ssIHR3byBmbG9vcnMuCg=="} = {"number":20}
{"act":"add-record","day":"2018-12-11","ref":"CAM/1","title":"Extract of the door camera","originated":"2018-12-11","aggregation":12,"content":"RnJvbSBlaWdodCB0byBuaW5lLgo="} = {"number":21}
{"act":"add-record","day":"2018-12-12","ref":"CON/1","title":"Contract for the quay lights","originated":"2018-12-12","aggregation":10,"class":"LEG-TERM","content":"VGVuIGxhbXBzLCBmaXZlIHllYXJzLgo="} = {"number":22}
{"act":"add-record","day":"2018-12-12","ref":"CON/2","title":"Contract for the landing stage","originated":"2018-12-12","aggregation":10,"content":"UmVwYWlycyB3aXRoaW4gdGhyZWUgZGF5cy4K"} = {"number":23}
{"act":"add-record","day":"2018-12-13","ref":"INV/2018/301","title":"Invoice of the stage builder","originated":"2018-12-13","aggregation":9,"content":"UGxhbmtzLCA5MTAuCg=="} = {"number":24}
{"act":"add-record","day":"2018-12-14","ref":"GEN/1","title":"Copy of the ferry timetable","originated":"2018-12-14","aggregation":5,"schedule":"CAM-30","content":"U3VtbWVyIDIwMTguCg=="} = {"number":25}
{"act":"close-aggregation","day":"2018-12-17","aggregation":3} = {"done":true}
{"act":"close-aggregation","day":"2018-12-17","aggregation":2} = {"done":true}
{"act":"close-aggregation","day":"2019-01-07","aggregation":6} = {"done":true}
{"act":"close-aggregation","day":"2019-01-07","aggregation":9} = {"done":true}
{"act":"add-record","day":"2019-02-01","ref":"PARK/3","title":"Notice 3 at the quay","originated":"2019-02-01","aggregation":11,"content":"V2l0aG91dCBhIHRpY2tldC4K"} = {"number":26}
{"act":"add-record","day":"2019-02-02","ref":"PARK/4","title":"Notice 4 at the quay","originated":"2019-02-02","aggregation":11,"content":"V2l0aG91dCBhIHRpY2tldC4K"} = {"number":27}
{"act":"add-record","day":"2019-02-03","ref":"PARK/5","title":"Notice 5 at the quay","originated":"2019-02-03","aggregation":11,"content":"V2l0aG91dCBhIHRpY2tldC4K"} = {"number":28}
{"act":"add-record","day":"2019-02-04","ref":"PARK/6","title":"Notice 6 at the quay","originated":"2019-02-04","aggregation":11,"content":"V2l0aG91dCBhIHRpY2tldC4K"} = {"number":29}
{"act":"add-record","day":"2019-02-05","ref":"PARK/7","title":"Notice 7 at the quay","originated":"2019-02-05","aggregation":11,"content":"V2l0aG91dCBhIHRpY2tldC4K"} = {"number":30}
{"act":"add-record","day":"2019-02-06","ref":"PARK/8","title":"Notice 8 at the quay","originated":"2019-02-06","aggregation":11,"content":"V2l0aG91dCBhIHRpY2tldC4K"} = {"number":31}
{"act":"reclassify","day":"2019-02-11","target":"record:16","class":"EVT-PER"} = {"done":true}
{"act":"add-record","day":"2019-03-04","ref":"APP/19-01","title":"Application of a ferry hand","originated":"2019-03-04","aggregation":4,"content":"V2l0aCBhIGJvYXQgbGljZW5jZS4K"} = {"number":32}
{"act":"add-record","day":"2019-03-05","ref":"COR/3","title":"Letter of the lantern makers","originated":"2019-03-05","aggregation":5,"content":"VGhleSBhc2sgZm9yIHRoZSBkYXRlLgo="} = {"number":33}
## at the desk
{"act":"place-hold","day":"2020-09-14","code":"Q-2020-17","reason":"Lawsuit on the accident at the landing stage","by":"Legal office"} = {"done":true}
{"act":"hold-on","day":"2020-09-14","hold":"Q-2020-17","target":"aggregation:2"} = {"done":true}
{"act":"hold-on","day":"2020-09-14","hold":"Q-2020-17","target":"record:23"} = {"done":true}
{"act":"hold-on","day":"2020-09-14","hold":"Q-2020-17","target":"class:FIN-INV"} = {"done":true}
{"act":"hold-on","day":"2020-09-14","hold":"Q-2020-17","target":"class:FIN-INV"} = {"refused":4}
## at the desk
{"act":"confirm","day":"2022-05-02","record":1,"action":"destroy","by":"R. Halloran, records manager"} = {"done":true}
{"act":"confirm","day":"2022-05-02","record":2,"action":"destroy","by":"R. Halloran, records manager"} = {"done":true}
{"act":"confirm","day":"2022-05-02","record":3,"action":"destroy","by":"R. Halloran, records manager"} = {"done":true}
{"act":"confirm","day":"2022-05-02","record":5,"action":"destroy","by":"R. Halloran, records manager"} = {"done":true}
{"act":"confirm","day":"2022-05-02","record":12,"action":"destroy","by":"R. Halloran, records manager"} = {"done":true}
{"act":"confirm","day":"2022-05-02","record":13,"action":"destroy","by":"R. Halloran, records manager"} = {"done":true}
{"act":"confirm","day":"2022-05-02","record":8,"action":"destroy","by":"R. Halloran, records manager"} = {"done":true}
{"act":"confirm","day":"2022-05-02","record":9,"action":"destroy","by":"R. Halloran, records manager"} = {"done":true}
{"act":"confirm","day":"2022-05-02","record":32,"action":"destroy","by":"R. Halloran, records manager"} = {"done":true}
{"act":"confirm","day":"2022-05-02","record":15,"action":"destroy","by":"R. Halloran, records manager"} = {"done":true}
{"act":"confirm","day":"2022-05-02","record":33,"action":"destroy","by":"R. Halloran, records manager"} = {"done":true}
{"act":"confirm","day":"2022-05-02","record":17,"action":"destroy","by":"R. Halloran, records manager"} = {"done":true}
{"act":"confirm","day":"2022-05-02","record":18,"action":"destroy","by":"R. Halloran, records manager"} = {"done":true}
{"act":"confirm","day":"2022-05-02","record":26,"action":"destroy","by":"R. Halloran, records manager"} = {"done":true}
{"act":"confirm","day":"2022-05-02","record":27,"action":"destroy","by":"R. Halloran, records manager"} = {"done":true}
{"act":"confirm","day":"2022-05-02","record":28,"action":"destroy","by":"R. Halloran, records manager"} = {"done":true}
{"act":"confirm","day":"2022-05-02","record":29,"action":"destroy","by":"R. Halloran, records manager"} = {"done":true}
{"act":"confirm","day":"2022-05-02","record":30,"action":"destroy","by":"R. Halloran, records manager"} = {"done":true}
{"act":"confirm","day":"2022-05-02","record":31,"action":"destroy","by":"R. Halloran, records manager"} = {"done":true}
{"act":"confirm","day":"2022-05-02","record":21,"action":"destroy","by":"R. Halloran, records manager"} = {"done":true}
{"act":"confirm","day":"2022-05-02","record":25,"action":"destroy","by":"R. Halloran, records manager"} = {"done":true}
{"act":"confirm","day":"2022-05-02","record":19,"action":"transfer","by":"R. Halloran, records manager"} = {"done":true}
{"act":"confirm","day":"2022-05-02","record":4,"action":"destroy","by":"R. Halloran, records manager"} = {"refused":15}
{"act":"confirm","day":"2022-05-02","record":10,"action":"destroy","by":"R. Halloran, records manager"} = {"refused":15}
{"act":"confirm","day":"2022-05-02","record":20,"action":"transfer","by":"R. Halloran, records manager"} = {"refused":15}
{"act":"confirm","day":"2022-05-02","record":22,"action":"destroy","by":"R. Halloran, records manager"} = {"refused":15}
{"act":"event","day":"2022-05-02","record":22,"occurred":"2023-12-12","by":"R. Halloran, records manager"} = {"refused":21}
{"act":"open-run","day":"2022-05-02","by":"R. Halloran, records manager"} = {"number":1}
## at the desk
{"act":"run-step"} = {"outcome":"skipped","record":1}
{"act":"run-step"} = {"outcome":"skipped","record":2}
{"act":"run-step"} = {"outcome":"skipped","record":3}
{"act":"run-step"} = {"outcome":"skipped","record":5}
{"act":"run-step"} = {"outcome":"destroyed","record":8}
{"act":"run-step"} = {"outcome":"destroyed","record":9}
{"act":"run-step"} = {"outcome":"destroyed","record":12}
{"act":"run-step"} = {"outcome":"destroyed","record":13}
{"act":"run-step"} = {"outcome":"destroyed","record":15}
{"act":"run-step"} = {"outcome":"destroyed","record":17}
{"act":"run-step"} = {"outcome":"destroyed","record":18}
{"act":"run-step"} = {"outcome":"sent","record":19}
{"act":"run-step"} = {"outcome":"destroyed","record":21}
{"act":"run-step"} = {"outcome":"destroyed","record":25}
{"act":"run-step"} = {"outcome":"destroyed","record":26}
{"act":"run-step"} = {"outcome":"destroyed","record":27}
{"act":"run-step"} = {"outcome":"destroyed","record":28}
{"act":"run-step"} = {"outcome":"destroyed","record":29}
{"act":"run-step"} = {"outcome":"destroyed","record":30}
{"act":"run-step"} = {"outcome":"destroyed","record":31}
{"act":"run-step"} = {"outcome":"destroyed","record":32}
{"act":"run-step"} = {"outcome":"destroyed","record":33}
{"act":"run-step"} = {"certificate":1}
## by the program
certificate 1 = 0;CERTIFICATE 1\nDAY 2022-05-02\nBY R. Halloran, records manager\nENDED 17\nSENT 1\nSKIPPED 4\nENTRY\t1\tskipped\tEVT/2018-01/1\tEVT-PER\tEVT-2\t2021-01-01\tQ-2020-17\tR. Halloran, records manager\t48\t5865a7f18cd73491796ca865954500cea52f8db12c9bee40241d2756dcfa2586\nENTRY\t2\tskipped\tEVT/2018-01/2\tEVT-PER\tEVT-2\t2021-01-01\tQ-2020-17\tR. Halloran, records manager\t37\t1f45f8d3b316c8a0eb18b26cd8c77509a96d89e6805a7b22ad62d9c2e8d880cc\nENTRY\t3\tskipped\tEVT/2018-01/3\tEVT-PER\tEVT-2\t2021-01-01\tQ-2020-17\tR. Halloran, records manager\t44\t864bdccdfcfd5e1930debdfdc140f9a1bfdd852896402c0831e02800f839a840\nENTRY\t5\tskipped\tEVT/2018-01/4\tEVT-PER\tEVT-2\t2021-01-01\tQ-2020-17\tR. Halloran, records manager\t64\tee75983337207a5ab288f0d9edbc1cf4a720d5affd6d5538abe7273865f270cf\nENTRY\t8\tdestroyed\tAPP/18-07\tPER-APP\tAPP-6M\t2019-01-30\t-\tR. Halloran, records manager\t23\te09985df756b0a3c0d0c12c48ca40cd7b831bcc58aac2bd8bae6b7a9d4788265\nENTRY\t9\tdestroyed\tAPP/18-09\tPER-APP\tAPP-6M\t2019-02-13\t-\tR. Halloran, records manager\t23\t6070d04d04a4116f2da037cf6e6d2495faf0137acf0c32775def1655ec119fcf\nENTRY\t12\tdestroyed\tEVT/2018-02/1\tEVT-PER\tEVT-2\t2021-01-01\t-\tR. Halloran, records manager\t49\t20463f71cafa842debe6d550a62ec04f2360be241c4f9e4f9d661533f0e5a5c4\nENTRY\t13\tdestroyed\tEVT/2018-02/2\tEVT-PER\tEVT-2\t2021-01-01\t-\tR. Halloran, records manager\t28\tcee74bd7d29eed93fbbed1dceb07d85e2eb2624b7a5c52618d71dc19d0e8e7de\nENTRY\t15\tdestroyed\tCOR/1\tGEN-COR\tCOR-3\t2022-04-01\t-\tR. Halloran, records manager\t21\t53769ff82fc5e59b0db4e09cc5f6d4b198c2dd6d7a6b8f8d1190482841b98a84\nENTRY\t17\tdestroyed\tPARK/1\tTRA-PARK\tPARK-26\t2019-06-03\t-\tR. Halloran, records manager\t27\tf8f5451c43d8e7ad6879322d02233d1187639f6c13333a966b4acb59811ddadb\nENTRY\t18\tdestroyed\tPARK/2\tTRA-PARK\tPARK-26\t2019-06-03\t-\tR. Halloran, records manager\t22\ta5edd494e9ea186dd85ee3e30d325b9bf798d1c4bb98c00241a3bdb37d5e2fb2\nENTRY\t19\tsent\tBLD/1\tBLD-PER\tBLD-30\t2019-01-01\t-\tR. Halloran, records manager\t26\tb34e945cca8c48f4235c189964281abba30b8a96c055fe73329010fa8de88bba\nENTRY\t21\tdestroyed\tCAM/1\tSEC-CAM\tCAM-30\t2019-01-10\t-\tR. Halloran, records manager\t20\te5b829a2b1bbcf180a7eb892f70d598189744bb37b022dd87383e58005306bff\nENTRY\t25\tdestroyed\tGEN/1\tGEN-COR\tCAM-30\t2019-01-13\t-\tR. Halloran, records manager\t13\tf9c129255ff6b9114806ee522229aadddf8b1dfecaa855808807f6447e5c8796\nENTRY\t26\tdestroyed\tPARK/3\tTRA-PARK\tPARK-26\t2019-08-02\t-\tR. Halloran, records manager\t18\t6c857c71d649188422435859f818d805f5b3d0a241c802e12362eab6e87824db\nENTRY\t27\tdestroyed\tPARK/4\tTRA-PARK\tPARK-26\t2019-08-03\t-\tR. Halloran, records manager\t18\t6c857c71d649188422435859f818d805f5b3d0a241c802e12362eab6e87824db\nENTRY\t28\tdestroyed\tPARK/5\tTRA-PARK\tPARK-26\t2019-08-04\t-\tR. Halloran, records manager\t18\t6c857c71d649188422435859f818d805f5b3d0a241c802e12362eab6e87824db\nENTRY\t29\tdestroyed\tPARK/6\tTRA-PARK\tPARK-26\t2019-08-05\t-\tR. Halloran, records manager\t18\t6c857c71d649188422435859f818d805f5b3d0a241c802e12362eab6e87824db\nENTRY\t30\tdestroyed\tPARK/7\tTRA-PARK\tPARK-26\t2019-08-06\t-\tR. Halloran, records manager\t18\t6c857c71d649188422435859f818d805f5b3d0a241c802e12362eab6e87824db\nENTRY\t31\tdestroyed\tPARK/8\tTRA-PARK\tPARK-26\t2019-08-07\t-\tR. Halloran, records manager\t18\t6c857c71d649188422435859f818d805f5b3d0a241c802e12362eab6e87824db\nENTRY\t32\tdestroyed\tAPP/19-01\tPER-APP\tAPP-6M\t2019-09-04\t-\tR. Halloran, records manager\t21\t11e8d77b85cee9891716b8ed91d6bd6ec928fccf38e3105285eb5136b1cc0b19\nENTRY\t33\tdestroyed\tCOR/3\tGEN-COR\tCOR-3\t2022-04-01\t-\tR. Halloran, records manager\t23\t39dc2dddcf5d8c4d33cb793f526bfb7cd25b40377e3c596edac97105096d689d\nSPENT 1\nAGGREGATION\t3\tEVT/2018-02\nSHA256 c046fb1e83b8f10f45544bef1bf2477e79be904aa572a299d9ec84f8d049e35d\n;
## at the desk
{"act":"event","day":"2023-11-20","record":22,"occurred":"2023-06-30","by":"R. Halloran, records manager"} = {"done":true}
{"act":"lift-hold","day":"2023-11-20","hold":"Q-2020-17"} = {"done":true}
{"act":"open-run","day":"2023-11-20","by":"R. Halloran, records manager"} = {"number":2}
{"act":"run-step"} = {"outcome":"destroyed","record":1}
{"act":"run-step"} = {"outcome":"destroyed","record":2}
{"act":"run-step"} = {"outcome":"destroyed","record":3}
{"act":"run-step"} = {"outcome":"destroyed","record":5}
{"act":"run-step"} = {"certificate":2}
## by the program
certificate 2 = 0;CERTIFICATE 2\nDAY 2023-11-20\nBY R. Halloran, records manager\nENDED 4\nSENT 0\nSKIPPED 0\nENTRY\t1\tdestroyed\tEVT/2018-01/1\tEVT-PER\tEVT-2\t2021-01-01\t-\tR. Halloran, records manager\t48\t5865a7f18cd73491796ca865954500cea52f8db12c9bee40241d2756dcfa2586\nENTRY\t2\tdestroyed\tEVT/2018-01/2\tEVT-PER\tEVT-2\t2021-01-01\t-\tR. Halloran, records manager\t37\t1f45f8d3b316c8a0eb18b26cd8c77509a96d89e6805a7b22ad62d9c2e8d880cc\nENTRY\t3\tdestroyed\tEVT/2018-01/3\tEVT-PER\tEVT-2\t2021-01-01\t-\tR. Halloran, records manager\t44\t864bdccdfcfd5e1930debdfdc140f9a1bfdd852896402c0831e02800f839a840\nENTRY\t5\tdestroyed\tEVT/2018-01/4\tEVT-PER\tEVT-2\t2021-01-01\t-\tR. Halloran, records manager\t64\tee75983337207a5ab288f0d9edbc1cf4a720d5affd6d5538abe7273865f270cf\nSPENT 1\nAGGREGATION\t2\tEVT/2018-01\nSHA256 9bc194fbea1f4457b7e837f0f9730c366391ff18e9f330fb7099f322347a1457\n;
"#;
